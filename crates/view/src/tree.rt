// Where a clock comes from, by the selectors of a bank, and what divides it.
ghost use Rattle.std.specs.Prelude.{◌≡◌, slice_get};
ghost use Rattle.view.specs.View.{from_of, divisor_of};

use exact::timer_divisor;
use fields::{
    CKPERSEL, HPRE, MCO1PRE, MCO1SEL, MCO2PRE, MCO2SEL, P, PPRE1, SW, TIMPRE, of_pll, word,
};
use types::PllNumber;

// The clock that one of a list of codes chooses.
fn chosen(clocks: &[usize], code: u32) -> Option<usize>
    ensures { result ≡ slice_get clocks.now code }
{
    clocks.get(code as usize).copied()
}

// The number of what clock k comes from.
#[tactic(auto, unfolding(crate::specs::View::from_of))]
pub fn from_of(bank: &[u32], k: usize) -> Option<usize>
    ensures { result ≡ from_of bank.now k }
{
    match k {
        0 => chosen(&[8, 9, 12, 17], word(bank, SW)),
        1 => Some(0),
        2..=6 => Some(1),
        7 => chosen(&[8, 9, 12], word(bank, CKPERSEL)),
        15 => chosen(&[8, 13, 12, 18, 10], word(bank, MCO1SEL)),
        16 => chosen(&[0, 20, 12, 17, 9, 11], word(bank, MCO2SEL)),
        17..=25 => Some(26 + (k - 17) / 3),
        _ => None,
    }
}

// What divides clock k, where something does.
#[tactic(auto, unfolding(crate::specs::View::divisor_of))]
pub fn divisor_of(bank: &[u32], k: usize) -> Option<u64>
    ensures { result ≡ divisor_of bank.now k }
{
    match k {
        1..=4 => Some(word(bank, HPRE + (k - 1)) as u64),
        5..=6 => timer_divisor(word(bank, TIMPRE), word(bank, PPRE1 + (k - 5))).map(u64::from),
        15 => Some(word(bank, MCO1PRE) as u64),
        16 => Some(word(bank, MCO2PRE) as u64),
        17..=25 => {
            let pll = PllNumber { k: (k - 17) / 3 };
            Some(word(bank, of_pll(pll) + 2 * ((k - 17) % 3) + P) as u64 + 1)
        }
        _ => None,
    }
}
