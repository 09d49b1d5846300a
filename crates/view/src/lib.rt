// A clock of a plan as the numbers of one line: docs/CODES.md, The page of a plan.
#![tactic(auto)]

ghost use Rattle.std.specs.Prelude.{◌≡◌};
ghost use Rattle.view.specs.View.{exact_parts, line_of};

use exact::Exact;
use fields::word;

mod tree;

// The exact fraction beside the hertz: whether it differs, the whole hertz, what is left over and the denominator; or that there is none, where the
// clock is known to come from anywhere.
fn exact_parts(known: u64, hertz: u64, x: Option<Exact>) -> [u64; 5]
    ensures { result ≡ exact_parts known hertz x }
{
    match x {
        Some(e) if e.denominator != 0 => {
            let whole = e.numerator / e.denominator;
            let rest = e.numerator % e.denominator;
            let differs = rest != 0 || whole != hertz;
            [differs as u64, whole, rest, e.denominator, 0]
        }
        _ => [0, 0, 0, 0, known],
    }
}

// The number that stands for no clock in a line: docs/CODES.md, The page of a plan.
const NOTHING: usize = 29;

// Clock k of a report, and of the tree that a bank's words make.
#[tactic(auto, using(crate::proofs::Line::lines))]
pub fn clock_line(report: &[u32], bank: &[u32], hse: Option<u32>, k: usize) -> [u64; 11]
    ensures { result ≡ line_of report.now bank.now hse k }
{
    if 25 < k {
        return [0; 11];
    }
    let there = word(report, 2 * k) as u64;
    let hertz = word(report, 2 * k + 1) as u64;
    let from = tree::from_of(bank, k);
    let known = u64::from(from.is_some());
    let divisor = tree::divisor_of(bank, k).unwrap_or(0);
    let e = exact_parts(known, hertz, exact::clock_reading(bank, hse, k));
    [
        k as u64,
        there,
        hertz,
        from.unwrap_or(NOTHING) as u64,
        known,
        divisor,
        e[0],
        e[1],
        e[2],
        e[3],
        e[4],
    ]
}
