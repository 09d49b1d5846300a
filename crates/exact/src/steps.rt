// One step from clock to clock.
ghost use Rattle.std.specs.Prelude.{◌≡◌, ◌+◌};
ghost use Rattle.rules.specs.Manual.Path.{PllName};
ghost use Rattle.rules.specs.Manual.Tree as Tree;
ghost use Rattle.rules.specs.Manual.Tree.{Oscillator, Chain, from_oscillator};
ghost use Rattle.exact.specs.Exact.{over_some, reading_of, scaled_by, timer_divisor};

use crate::Exact;

// A clock × a / b, each number at most 2^64 − 1.
#[tactic(auto, using(crate::proofs::Chains::chains))]
fn scaled(clock: Option<Exact>, a: u64, b: u64) -> Option<Exact>
    ensures { result ≡ scaled_by clock a b }
{
    let c = clock?;
    Some(Exact {
        numerator: c.numerator.saturating_mul(a),
        denominator: c.denominator.saturating_mul(b),
    })
}

// A clock divided; none by 0.
#[tactic(auto, using(crate::proofs::Chains::chains))]
pub fn over(clock: Option<Exact>, d: u64) -> Option<Exact>
    ensures { (c : Chain) → clock ≡ reading_of c → result ≡ reading_of (Tree.over c d) }
{
    if d == 0 {
        return None;
    }
    scaled(clock, 1, d)
}

// What the timers on an APB divide AHB by: PPRE / 2 from PPRE 4 up under TIMPRE 0, PPRE / 4 from 8 up else, and 1 below; nothing for a PPRE other
// than 1, 2, 4, 8, 16, which gives no clock.
#[tactic(auto, using(crate::proofs::Chains::chains))]
pub fn timer_divisor(timpre: u32, ppre: u32) -> Option<u32>
    ensures divisor { result ≡ timer_divisor timpre ppre }
    ensures clock { (c : Chain) → reading_of (over_some c result) ≡ reading_of (Tree.timer_by timpre ppre c) }
{
    match ppre {
        1 | 2 => Some(1),
        4 => Some(if timpre == 0 { 2 } else { 1 }),
        8 => Some(if timpre == 0 { 4 } else { 2 }),
        16 => Some(if timpre == 0 { 8 } else { 4 }),
        _ => None,
    }
}

// VCO: the source / M × N, N being its field + 1; under FRACEN × (N + FRACN / 8192). None with M at 0.
#[tactic(auto, using(crate::proofs::Chains::chains))]
pub fn vco_by(source: Option<Exact>, m: u32, n: u32, fracen: u32, fracn: u32) -> Option<Exact>
    ensures { (j : PllName) (o : Oscillator) → source ≡ reading_of (from_oscillator o) → result ≡ reading_of (Tree.vco_by j o m (n + 1) fracen fracn) }
{
    if m == 0 {
        return None;
    }
    let whole = n as u64 + 1;
    if fracen == 0 {
        return scaled(source, whole, m as u64);
    }
    scaled(source, 8192 * whole + fracn as u64, 8192 * m as u64)
}
