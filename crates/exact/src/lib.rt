// The manual's clock tree as code: from the words of a bank and the request's HSE hertz, the exact fraction of one clock. Document 01, The clock tree.
#![tactic(auto)]

ghost use Rattle.std.specs.Prelude.{◌≡◌};
ghost use Rattle.rules.specs.Manual.Tree.{fed_by};
ghost use Rattle.exact.specs.Exact.{path_by, reading_of};

use bank::Bank;
use fields::{P, PPRE1, PPRE2, PPRE3, Q, R};
use types::{PLL1, PLL2, PLL3};

mod bank;
mod buses;
mod mco;
mod oscillators;
mod pll;
mod steps;

pub use steps::timer_divisor;

// The numerator and the denominator of a clock's hertz. A number that does not fit 64 bits shows as 2^64 − 1.
#[derive(Clone, Copy)]
pub struct Exact {
    pub numerator: u64,
    pub denominator: u64,
}

// The clock at this number of the report, where it comes from one: docs/CODES.md, The C functions. LSE and audio have no path in the tree.
#[tactic(auto, using(crate::proofs::Chains::chains), unfolding(crate::specs::Exact::clocks_by, rules::specs::Manual::Tree::path_of))]
pub fn clock_reading(bank: &[u32], hse: Option<u32>, clock: usize) -> Option<Exact>
    ensures { result ≡ reading_of (path_by bank.now (fed_by hse) clock) }
{
    let b = Bank { words: bank, hse };
    match clock {
        0 => b.sys(),
        1 => b.ahb(),
        2 => b.divided(b.ahb(), PPRE1),
        3 => b.divided(b.ahb(), PPRE2),
        4 => b.divided(b.ahb(), PPRE3),
        5 => b.timer(PPRE1),
        6 => b.timer(PPRE2),
        7 => b.per(),
        8 => b.hsi(),
        9 => b.csi(),
        10 => b.hsi48(),
        11 => b.lsi(),
        12 => b.hse(),
        13 | 14 => None,
        15 => b.mco1(),
        16 => b.mco2(),
        17 => b.output(PLL1, P),
        18 => b.output(PLL1, Q),
        19 => b.output(PLL1, R),
        20 => b.output(PLL2, P),
        21 => b.output(PLL2, Q),
        22 => b.output(PLL2, R),
        23 => b.output(PLL3, P),
        24 => b.output(PLL3, Q),
        25 => b.output(PLL3, R),
        _ => None,
    }
}
