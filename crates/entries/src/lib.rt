// How many register entries does an answer have, and which is each? Document 01, Register entries. The list is told once, entry by entry, to
// whatever takes it.
#![tactic(auto)]

ghost use Rattle.std.specs.Prelude.{◌≡◌, length, slice_get};
ghost use Rattle.rules.specs.Document01.Entries.{entries_of, plan_entries};
ghost use Rattle.entries.specs.Sink.{told};

use count::Count;
use pick::Pick;
use types::{Entry, Plan, Refusal};

mod buses;
mod clocks;
mod count;
mod pick;
mod plls;
pub mod sink;

// The whole list of an answer is told to a sink, in order: none beside a refusal.
#[tactic(auto, unfolding(rules::specs::Document01::Entries::entries_of))]
pub fn tell<S: sink::Sink>(x: &Result<Plan, Refusal>, s: &mut S, room: &mut [u32])
    ensures { (s.new, room.new) ≡ told S.after (entries_of x.now) (s.old, room.old) }
{
    if let Ok(plan) = x {
        tell_plan(plan, s, room);
    }
}

// The parts of the whole list of a plan, in order.
#[tactic(auto, using(crate::proofs::Told::told_append), unfolding(rules::specs::Document01::Entries::list_with))]
fn tell_plan<S: sink::Sink>(plan: &Plan, s: &mut S, room: &mut [u32])
    ensures { (s.new, room.new) ≡ told S.after (plan_entries plan.now) (s.old, room.old) }
{
    plls::set_up_all(&plan.plls, s, room);
    clocks::clocks(plan.waits, &plan.selectors, &plan.mcos, s, room);
    clocks::hse_on(plan.clocks.hse, plan.bypass, s, room);
    plls::sources(plan.three, plan.selectors.src, s, room);
    plls::start_all(&plan.plls, s, room);
    buses::buses(&plan.buses, &plan.selectors, s, room)
}

// How many entries there are.
pub fn entry_count(x: &Result<Plan, Refusal>) -> usize
    ensures { result ≡ length (entries_of x.now) }
{
    let mut count = Count { entries: 0 };
    tell(x, &mut count, &mut []);
    count.entries
}

// Entry k of the list, from 0.
pub fn entry_at(x: &Result<Plan, Refusal>, k: usize) -> Option<Entry>
    ensures { result ≡ slice_get (entries_of x.now) k }
{
    let mut pick = Pick {
        before: k,
        found: None,
    };
    tell(x, &mut pick, &mut []);
    pick.found
}
