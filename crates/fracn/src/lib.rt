// FRACN and the VCO clock of a PLL in Fractional strategy: calc_fracn and calc_vco_ck of pll.rs. Each operation is an f32 operation in the
// Rust's order, rounded once.
#![tactic(auto)]

ghost use Rattle.std.specs.Prelude.{◌≡◌, true, false, pos};
ghost use Rattle.std.specs.Float.Ieee as Ieee;
ghost use Rattle.std.specs.Float.{binary32, fin};
ghost use Rattle.ieee754.specs.Steps.{float, fracn_of, vco_of};
ghost use Rattle.ieee754.specs.Whole.{fracn_for, vco_whole};
ghost use Rattle.rules.specs.Document01.OnePll.{taken, fracn_from};

// The f32 nearest to n, a tie to the even one: the Rust's `n as f32`.
fn to_f32(n: u32) -> f32
    ensures { result ≡ Ieee.of_int binary32 (pos n) }
{
    std::num::nearest_u32_to_f32(n)
}

// The same for a number that is seldom above 2^24. Up to there each whole number is an f32, and the cast is one instruction.
fn small_to_f32(n: u32) -> f32
    ensures { result ≡ Ieee.of_int binary32 (pos n) }
{
    if n <= 0x100_0000 {
        return n as f32;
    }
    to_f32(n)
}

// x cut to a u32, for x from 1 to below 2^24. Its bit pattern is an exponent and 23 digits, which a leading 1 goes before: those below the
// point are shifted out.
#[tactic(auto, using(crate::proofs::Pattern::down_from, crate::proofs::Pattern::down_by, crate::proofs::Pattern::down_is))]
fn cut_down(x: f32) -> u32
    requires low { Ieee.le (fin false 1 (pos 0)) x ≡ true }
    requires high { Ieee.lt x (fin false 1 (pos 24)) ≡ true }
    ensures { result ≡ Ieee.to_unsigned 32 x }
{
    let bits: u32 = f32::to_bits(x);
    let digits: u32 = bits % 0x80_0000 + 0x80_0000;
    digits >> (150 - (bits >> 23))
}

// The same for x from 2^24 to below 2^32, which is a whole number: zeros come after the digits.
#[tactic(auto, using(crate::proofs::Pattern::up_from, crate::proofs::Pattern::up_by, crate::proofs::Pattern::up_is))]
fn cut_up(x: f32) -> u32
    requires low { Ieee.le (fin false 1 (pos 24)) x ≡ true }
    requires high { Ieee.lt x (fin false 1 (pos 32)) ≡ true }
    ensures { result ≡ Ieee.to_unsigned 32 x }
{
    let bits: u32 = f32::to_bits(x);
    let digits: u32 = bits % 0x80_0000 + 0x80_0000;
    digits << ((bits >> 23) - 150)
}

// x cut to a u32, to the nearest end where it is out of range, 0 for a NaN: the Rust's `x as u32`. A VCO is mostly above 2^24,
// which is tested first. std's saturating_f32_to_u32 goes by f64, of which a Cortex-M33 has no instructions.
#[tactic(auto, using(ieee754::proofs::Cut::cut_high, crate::proofs::Sides::above, crate::proofs::Sides::below, crate::proofs::Sides::under_one, crate::proofs::Sides::constants))]
fn cut_u32(x: f32) -> u32
    ensures { result ≡ Ieee.to_unsigned 32 x }
{
    if x >= 16777216.0 {
        if x < 4294967296.0 {
            return cut_up(x);
        }
        return 0xffff_ffff;
    }
    if x >= 1.0 {
        return cut_down(x);
    }
    0
}

// Reference, N, divider and output, as they travel together to the FRACN step.
#[derive(Clone, Copy)]
pub struct FracnInput {
    pub reference: f32,
    pub n: f32,
    pub divider: f32,
    pub output: f32,
}

// FRACN = 8192 × ((output × divider) / reference − N), cut down. Outside 0 to 8191, a NaN included, it is out of range, which is refusal 13.
// Below 1 it is 0.
#[tactic(auto, using(crate::proofs::Accept::accepts, crate::proofs::Sides::constants), unfolding(ieee754::specs::Steps::fracn_of))]
pub fn calc_fracn(i: FracnInput) -> Option<u16>
    ensures steps { result ≡ fracn_of i.reference i.n i.divider i.output }
    ensures rules { taken result ≡ fracn_from i.reference i.n i.divider i.output }
{
    let f = 8192.0 * (((i.output * i.divider) / i.reference) - i.n);
    if f >= 1.0 {
        if f <= 8191.0 {
            return Some(cut_down(f) as u16);
        }
        return None;
    }
    if f >= 0.0 {
        return Some(0);
    }
    None
}

// FRACN from whole numbers, each of them an f32 first.
#[tactic(auto, using(ieee754::proofs::Zero::fracn_always))]
pub fn fracn_for(reference: u32, n: u32, divider: u32, output: u32) -> Option<u16>
    ensures steps { result ≡ fracn_of (float reference) (float n) (float divider) (float output) }
    ensures whole { result ≡ fracn_for reference n divider output }
{
    let i = FracnInput {
        reference: small_to_f32(reference),
        n: small_to_f32(n),
        divider: small_to_f32(divider),
        output: to_f32(output),
    };
    calc_fracn(i)
}

// VCO = reference × (N + FRACN / 8192), cut down.
#[tactic(auto, using(ieee754::proofs::Same::vco_same, crate::proofs::Sides::constants), unfolding(ieee754::specs::Steps::vco_of))]
pub fn calc_vco_ck(reference: u32, n: u32, fracn: u16) -> u32
    ensures steps { result ≡ vco_of reference n fracn }
    ensures whole { result ≡ vco_whole reference n fracn }
{
    cut_u32(small_to_f32(reference) * (small_to_f32(n) + (fracn as f32) / 8192.0))
}
