// The C functions: docs/CODES.md, The C functions, and include/clock_api.h.
#![tactic(auto)]

ghost use Rattle.std.specs.Prelude.{◌≡◌, true, eqb, length, IsOk};
ghost use Rattle.rules.specs.Document01.Entries.{entries_of};
ghost use Rattle.rules.specs.Document01.Bank.{apply_all};
ghost use Rattle.rules.specs.Document01.Refusals.{code_of};
ghost use Rattle.rules.specs.Words.{list_length};
ghost use Rattle.chip_bytes.specs.Calls.{asked_of, bank_asked};
ghost use Rattle.clock_api.specs.Calls.{report_by, list_by};

use types::{Plan, Refusal};

// Words of a list, with room for 69 entries.
const LIST: usize = 1 + 9 * 69;

pub mod both;
pub mod one_pll;
pub mod plls;
pub mod walks;

// A plan's clocks, in 55 words.
#[tactic(auto, using(crate::proofs::Fits::asked_fits))]
pub fn clock_plan(request: &[u8], chip: &[u8], report: &mut [u32]) -> u32
    ensures code { result ≡ code_of (asked_of request.now chip.now (eqb (length report.old) 55)) }
    ensures report { report.new ≡ report_by (asked_of request.now chip.now (eqb (length report.old) 55)) report.old }
{
    let x = chip_bytes::plan(request, chip, report.len() == 55);
    report_by(&x, report)
}

// A plan is here beside 55 words alone; the test tells it to the compiler, which then tests no place by itself.
fn report_by(x: &Result<Plan, Refusal>, report: &mut [u32]) -> u32
    requires { IsOk x.now → length report.old ≡ 55 }
    ensures code { result ≡ code_of x.now }
    ensures report { report.new ≡ report_by x.now report.old }
{
    match x {
        Ok(plan) => {
            if report.len() == 55 {
                report::store_report(plan, report);
            }
            0
        }
        Err(n) => refusal::number_of(*n),
    }
}

// A plan's register entries: the count, and nine words for each.
pub fn clock_entries(request: &[u8], chip: &[u8], list: &mut [u32]) -> u32
    ensures code { result ≡ code_of (asked_of request.now chip.now (eqb (length list.old) list_length)) }
    ensures list { list.new ≡ list_by (asked_of request.now chip.now (eqb (length list.old) list_length)) list.old }
{
    let x = chip_bytes::plan(request, chip, list.len() == LIST);
    list_by(&x, list)
}

#[tactic(auto, unfolding(rules::specs::Document01::Entries::entries_of))]
fn list_by(x: &Result<Plan, Refusal>, list: &mut [u32]) -> u32
    ensures code { result ≡ code_of x.now }
    ensures list { list.new ≡ list_by x.now list.old }
{
    if x.is_ok() {
        listing::store_list(x, list);
    }
    refusal::code_of(x)
}

// The whole list applied to a bank of 82 words.
pub fn clock_bank(request: &[u8], chip: &[u8], bank: &mut [u32]) -> u32
    ensures code { result ≡ code_of (bank_asked request.now chip.now true (length bank.old)) }
    ensures bank { bank.new ≡ apply_all (entries_of (bank_asked request.now chip.now true (length bank.old))) bank.old }
{
    let answer = chip_bytes::answer_bank(request, chip, bank);
    refusal::code_of(&answer)
}
