// A sheet: 115 bytes that hold a request and a chip, as docs/CODES.md has it (A request in words): the 106 of a request with three PLLs, the
// chip's seven numbers, what is shown, and how many bytes of a request are given.
#![tactic(auto)]

ghost use Rattle.std.specs.Prelude.{◌≡◌, ◌≤◌, ◌-◌, length, get_or, take, drop};
ghost use Rattle.sheet.specs.Sheet.{pll3_at, chip_at, fresh_sheet, all_zero, bytes_meant, request_length, chip_on};

use types::Chip;

// Where PLL3's part of a request stands.
pub const PLL3: usize = 90;

// The chip's seven numbers.
pub const CHIP: usize = 106;

// What is shown.
pub const SHOWN: usize = 113;

// How many bytes of a request are given.
pub const GIVEN: usize = 114;

// A sheet with nothing requested, of a chip with two PLLs.
#[tactic(auto, unfolding(crate::specs::Sheet::fresh_sheet))]
pub fn fresh() -> [u8; 115]
    ensures { result ≡ fresh_sheet }
{
    let mut sheet: [u8; 115] = [0; 115];
    sheet[CHIP] = 2;
    sheet[CHIP + 2] = 1;
    sheet[CHIP + 3] = 1;
    sheet[CHIP + 5] = 1;
    sheet[CHIP + 6] = 2;
    sheet
}

// A byte of a sheet as a number; 0 past its end.
fn number_at(sheet: &[u8], i: usize) -> u32
    ensures { result ≡ get_or sheet.now i 0 }
{
    u32::from(sheet.get(i).copied().unwrap_or(0))
}

// Whether nothing is requested of PLL3.
fn no_pll3(sheet: &[u8]) -> bool
    ensures { result ≡ all_zero (take (chip_at - pll3_at) (drop pll3_at sheet.now)) }
{
    sheet.iter().skip(PLL3).take(CHIP - PLL3).all(|b| *b == 0)
}

// How many bytes of a sheet are meant.
fn bytes_meant(sheet: &[u8]) -> usize
    ensures { result ≡ bytes_meant sheet.now }
{
    let given = number_at(sheet, GIVEN) as usize;
    if given != 0 {
        return given;
    }
    if number_at(sheet, CHIP) == 3 {
        return CHIP;
    }
    if no_pll3(sheet) {
        return PLL3;
    }
    CHIP
}

// How many bytes the request of a sheet has: no more than the sheet.
#[tactic(auto, unfolding(crate::specs::Sheet::request_length))]
pub fn request_length(sheet: &[u8]) -> usize
    ensures length { result ≡ request_length sheet.now }
    ensures within { result ≤ length sheet.now }
{
    bytes_meant(sheet).min(sheet.len())
}

// The request of a sheet.
pub fn request(sheet: &[u8]) -> &[u8]
    ensures { result.now ≡ take (request_length sheet.now) sheet.now }
{
    &sheet[..request_length(sheet)]
}

// The chip of a sheet.
#[tactic(auto, unfolding(crate::specs::Sheet::chip_on))]
pub fn chip(sheet: &[u8]) -> Chip
    ensures { result ≡ chip_on sheet.now }
{
    Chip {
        plls: number_at(sheet, CHIP),
        odd: [
            number_at(sheet, CHIP + 1),
            number_at(sheet, CHIP + 2),
            number_at(sheet, CHIP + 3),
        ],
        scale: number_at(sheet, CHIP + 4),
        hsion: number_at(sheet, CHIP + 5),
        hsidiv: number_at(sheet, CHIP + 6),
    }
}
