// A plan's clocks and its bank in one call, as the Rust's setters and freeze give both.
ghost use Rattle.std.specs.Prelude.{◌≡◌, eqb, length};
ghost use Rattle.rules.specs.Document01.Entries.{entries_of};
ghost use Rattle.rules.specs.Document01.Bank.{apply_all};
ghost use Rattle.rules.specs.Document01.Refusals.{code_of};
ghost use Rattle.chip_bytes.specs.Calls.{bank_asked};
ghost use Rattle.clock_api.specs.Calls.{report_by};

use crate::report_by;

// A plan's clocks in 55 words, and the whole list applied to a bank of 82 words.
#[tactic(auto, using(crate::proofs::Fits::bank_fits))]
pub fn clock_plan_bank(request: &[u8], chip: &[u8], report: &mut [u32], bank: &mut [u32]) -> u32
    ensures code { result ≡ code_of (bank_asked request.now chip.now (eqb (length report.old) 55) (length bank.old)) }
    ensures report { report.new ≡ report_by (bank_asked request.now chip.now (eqb (length report.old) 55) (length bank.old)) report.old }
    ensures bank { bank.new ≡ apply_all (entries_of (bank_asked request.now chip.now (eqb (length report.old) 55) (length bank.old))) bank.old }
{
    let x = chip_bytes::plan_bank(request, chip, report.len() == 55, bank);
    report_by(&x, report)
}
