// The planner's two calls, with the customer's three demands. rcc.rs (Config, freeze).
#![tactic(auto)]

ghost use Rattle.std.specs.Prelude.{◌≡◌, cond, length};
ghost use Rattle.rules.specs.Document01.Plan.{plan_of, bank_plan_of};
ghost use Rattle.rules.specs.Document01.Entries.{entries_of};
ghost use Rattle.rules.specs.Document01.Bank.{apply_all};
ghost use Rattle.claims.specs.Demands.Rows.{AsRows};
ghost use Rattle.claims.specs.Demands.Refused.{plan_rows, bank_rows};
ghost use Rattle.claims.specs.Demands.Calls.{plan_numbers, bank_numbers, Answered, Kept, AsFreeze, IsLegal, ReadTwice, BankReadTwice};

use types::{Chip, Plan, Refusal};

// The answer to the bytes of a request, where a bank has 82 words or is not there: `fits`. Refusal 1 comes before 2, and 2 before the others.
#[tactic(auto, using(claims::proofs::Refused::Calls::third_fits), unfolding(rules::specs::Document01::Plan::bank_plan_of))]
fn answer(request: &[u8], chip: Chip, fits: bool) -> Result<Plan, Refusal>
    ensures { result ≡ bank_plan_of request.now chip (cond fits 82 0) }
{
    let asked = request::read_request(request, chip)?;
    if !fits {
        return Err(Refusal::BankLength);
    }
    freeze::answer_to(&asked.request, &asked.chip)
}

// The planner's call: the bytes of a request and the numbers of a chip to one complete plan or one refusal.
#[tactic(auto, using(crate::proofs::Promised::promised))]
pub fn plan(request: &[u8], chip: Chip) -> Result<Plan, Refusal>
    ensures rules { result ≡ plan_of request.now chip }
    ensures answered { Answered plan_numbers result }
    ensures freeze { AsFreeze request.now chip result }
    ensures legal { IsLegal request.now chip result }
    ensures readings { ReadTwice request.now chip result }
    ensures order { AsRows (plan_rows request.now chip) result }
{
    answer(request, chip, true)
}

// Words of a bank.
const BANK: usize = 82;

// The bank call: the same, with the whole list applied to a lent bank of 82 words. It polls nothing.
#[tactic(auto, using(crate::proofs::Promised::bank_promised, crate::proofs::Promised::other_promised))]
pub fn plan_bank(request: &[u8], chip: Chip, bank: &mut [u32]) -> Result<Plan, Refusal>
    ensures rules { result ≡ bank_plan_of request.now chip (length bank.old) }
    ensures bank { bank.new ≡ apply_all (entries_of result) bank.old }
    ensures kept { Kept result bank.old bank.new }
    ensures answered { Answered bank_numbers result }
    ensures freeze { length bank.old ≡ 82 → AsFreeze request.now chip result }
    ensures legal { IsLegal request.now chip result }
    ensures readings { BankReadTwice request.now chip result bank.old bank.new }
    ensures order { AsRows (bank_rows request.now chip (length bank.old)) result }
{
    let words = bank.len();
    if words != BANK {
        return answer(request, chip, false);
    }
    let planned = answer(request, chip, true);
    registers::apply(planned, bank);
    planned
}
