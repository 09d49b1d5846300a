// Which word of the bank is which field, what a field takes where the plan's own number is not stored as it is, reading and storing one, and
// a bank at reset values.
#![tactic(auto)]

ghost use Rattle.std.specs.Prelude.{◌≡◌, set, ◌-◌};
ghost use Rattle.rules.specs.Document01.Fields.{of_pll};
ghost use Rattle.rules.specs.Document01.Entries.{prften_of};
ghost use Rattle.rules.specs.Document01.Bank.{reset_bank};
ghost use Rattle.rules.specs.Manual.Tree.{word as word_of};

use types::PllNumber;

// Document 01, Register entries: 15 fields per PLL. PLL k's words start at 15 * k, from PLL1 as 0.
pub const VCOSEL: usize = 0;

pub const RGE: usize = 1;

pub const M: usize = 2;

pub const N: usize = 3;

pub const FRACN: usize = 4;

pub const FRACEN: usize = 5;

pub const P: usize = 6;

pub const PEN: usize = 7;

pub const Q: usize = 8;

pub const QEN: usize = 9;

pub const R: usize = 10;

pub const REN: usize = 11;

pub const SRC: usize = 12;

pub const ON: usize = 13;

pub const RDY: usize = 14;

// Document 01, Register entries: the fields that are no PLL's, in the order of the list.
pub const LSION: usize = 45;

pub const LSIRDY: usize = 46;

pub const WRHIGHFREQ: usize = 47;

pub const LATENCY: usize = 48;

pub const PRFTEN: usize = 49;

pub const CSION: usize = 50;

pub const CSIRDY: usize = 51;

pub const HSI48ON: usize = 52;

pub const HSI48RDY: usize = 53;

pub const MCO1SEL: usize = 54;

pub const MCO1PRE: usize = 55;

pub const MCO2SEL: usize = 56;

pub const MCO2PRE: usize = 57;

pub const HSEON: usize = 58;

pub const HSEBYP: usize = 59;

pub const HSERDY: usize = 60;

pub const HPRE: usize = 61;

pub const PPRE1: usize = 62;

pub const PPRE2: usize = 63;

pub const PPRE3: usize = 64;

pub const CKPERSEL: usize = 65;

pub const TIMPRE: usize = 66;

pub const SW: usize = 67;

pub const SWS: usize = 68;

pub const SBSEN: usize = 69;

pub const EN1: usize = 70;

pub const CS1: usize = 71;

pub const EN2: usize = 72;

pub const CS2: usize = 73;

pub const RDY1: usize = 74;

pub const RDY2: usize = 75;

// Document 01, Register entries: HSI's fields, which no entry sets.
pub const HSION: usize = 76;

pub const HSIDIV: usize = 77;

// Document 01, Register entries: the fields of Pwr::freeze, the last words of the bank.
pub const VOS: usize = 78;

pub const ACTVOS: usize = 79;

pub const ACTVOSRDY: usize = 80;

pub const VOSRDY: usize = 81;

// Where a PLL's fields begin.
pub fn of_pll(pll: PllNumber) -> usize
    ensures { result ≡ of_pll pll.k 0 }
{
    15 * pll.k
}

// N − 1, and divider − 1 for P, Q and R; 0 of 0.
pub fn less_one(x: u32) -> u32
    ensures { result ≡ x - 1 }
{
    x.saturating_sub(1)
}

// PRFTEN: 1 if latency is above 0.
pub fn prften(latency: u32) -> u32
    ensures { result ≡ prften_of latency }
{
    u32::from(0 < latency)
}

// The word of a field; 0 where a bank has none. Not by `get`: an Option of a reference is compiled to a form that scripts/firmware does not take
// to a 32-bit target.
pub fn word(words: &[u32], f: usize) -> u32
    ensures { result ≡ word_of words.now f }
{
    if f < words.len() {
        let w = words[f];
        return w;
    }
    0
}

// Applying an entry changes only the fields it sets: the word at f becomes v. A bank that has no word f stays.
pub fn put(f: usize, v: u32, bank: &mut [u32])
    ensures { bank.new ≡ set bank.old f v }
{
    if f < bank.len() {
        bank[f] = v;
    }
}

// A bank at reset values.
#[tactic(auto, unfolding(rules::specs::Document01::Bank::reset_bank))]
pub fn reset_bank() -> [u32; 82]
    ensures { result ≡ reset_bank }
{
    let mut bank: [u32; 82] = [0; 82];
    bank[HPRE] = 1;
    bank[PPRE1] = 1;
    bank[PPRE2] = 1;
    bank[PPRE3] = 1;
    bank[HSION] = 1;
    bank[HSIDIV] = 2;
    bank
}
