// The planner's calls on a chip's seven bytes: docs/CODES.md, The C functions.
#![tactic(auto)]

ghost use Rattle.std.specs.Prelude.{◌≡◌, true, length};
ghost use Rattle.rules.specs.Document01.Entries.{entries_of};
ghost use Rattle.rules.specs.Document01.Bank.{apply_all};
ghost use Rattle.rules.specs.Document01.Result.{without_value};
ghost use Rattle.chip_bytes.specs.Calls.{chip_of, chip_from, checked_chip, asked_of, bank_asked};

use types::{Chip, Plan, Refusal};

// The chip's numbers, a byte for each.
fn chip_of(plls: u8, odd1: u8, odd2: u8, odd3: u8, scale: u8, hsion: u8, hsidiv: u8) -> Chip
    ensures { result ≡ chip_of plls odd1 odd2 odd3 scale hsion hsidiv }
{
    Chip {
        plls: plls as u32,
        odd: [odd1 as u32, odd2 as u32, odd3 as u32],
        scale: scale as u32,
        hsion: hsion as u32,
        hsidiv: hsidiv as u32,
    }
}

fn chip_from(chip: &[u8]) -> Chip
    requires { length chip.now ≡ 7 }
    ensures { result ≡ chip_from chip.now }
{
    chip_of(
        chip[0], chip[1], chip[2], chip[3], chip[4], chip[5], chip[6],
    )
}

// The chip, where it has seven bytes and the slice lent beside it has its length: `fits`. Else one without PLLs, which refusal 1 judges.
#[tactic(auto, unfolding(crate::specs::Calls::checked_chip))]
pub fn checked(chip: &[u8], fits: bool) -> Chip
    ensures { result ≡ checked_chip chip.now fits }
{
    if chip.len() != 7 || !fits {
        return chip_of(0, 0, 0, 0, 0, 0, 0);
    }
    chip_from(chip)
}

// The planner's call, where the slice lent beside it has its length: `fits`.
#[tactic(auto, using(crate::proofs::Asked::as_asked, crate::proofs::Asked::as_bank))]
pub fn plan(request: &[u8], chip: &[u8], fits: bool) -> Result<Plan, Refusal>
    ensures { result ≡ asked_of request.now chip.now fits }
{
    rcc::plan(request, checked(chip, fits))
}

// The call with a bank, likewise.
#[tactic(auto, using(crate::proofs::Asked::as_asked, crate::proofs::Asked::as_bank))]
pub fn plan_bank(request: &[u8], chip: &[u8], fits: bool, bank: &mut [u32]) -> Result<Plan, Refusal>
    ensures answer { result ≡ bank_asked request.now chip.now fits (length bank.old) }
    ensures bank { bank.new ≡ apply_all (entries_of (bank_asked request.now chip.now fits (length bank.old))) bank.old }
{
    rcc::plan_bank(request, checked(chip, fits), bank)
}

// The call with a bank and no slice beside it: whether there is a plan. The plan itself is not handed on, which spares a copy.
#[tactic(auto, using(crate::proofs::Asked::as_asked, crate::proofs::Asked::as_bank))]
pub fn answer_bank(request: &[u8], chip: &[u8], bank: &mut [u32]) -> Result<(), Refusal>
    ensures answer { result ≡ without_value (bank_asked request.now chip.now true (length bank.old)) }
    ensures bank { bank.new ≡ apply_all (entries_of (bank_asked request.now chip.now true (length bank.old))) bank.old }
{
    rcc::plan_bank(request, checked(chip, true), bank)?;
    Ok(())
}
