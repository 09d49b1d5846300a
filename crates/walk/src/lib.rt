// The register walk: a plan's list one entry at a time, moved on in place by the values read. rcc.rs (freeze, its polling).
#![tactic(auto)]

ghost use Rattle.std.specs.Prelude.{◌≡◌, length, ◌<◌};
ghost use Rattle.rules.specs.Document01.Entries.{most};
ghost use Rattle.rules.specs.Document01.Walk.{shown_of, stepped_of, fresh_of, passes, is_check};
ghost use Rattle.rules.specs.Words.{shown_count, ran};
ghost use Rattle.walk.specs.Walk.{fresh_walk, stand_of, stepped_walk, passed_walk};

use types::{Entry, Plan, Refusal, Shown};
use words::steps::Steps;

// The answer whose list is walked, the place in the list, and whether the check of CSIRDY has ended the walk.
#[derive(Clone, Copy)]
pub struct Walk {
    pub planned: Result<Plan, Refusal>,
    pub at: usize,
    pub down: bool,
}

// A walk before any step.
#[tactic(auto, using(crate::proofs::Laws::fresh_stands))]
pub fn fresh(planned: Result<Plan, Refusal>) -> Walk
    ensures walk { result ≡ fresh_walk planned }
    ensures rules { stand_of result ≡ fresh_of planned }
{
    Walk {
        planned,
        at: 0,
        down: false,
    }
}

// Whether the values read let a step pass an entry.
fn passes(e: Entry, a: u32, b: u32) -> bool
    ensures { result ≡ passes e a b }
{
    match e {
        Entry::Wait(_, v) => a == v,
        Entry::Wait2(_, v, _, w) => (a == v) & (b == w),
        Entry::Check(_, v) => a == v,
        _ => true,
    }
}

fn is_check(e: Entry) -> bool
    ensures { result ≡ is_check e }
{
    matches!(e, Entry::Check(_, _))
}

// The walk at an entry, after the values read.
fn passed(w: Walk, e: Entry, a: u32, b: u32) -> Walk
    requires { w.at < most }
    ensures { result ≡ passed_walk e w a b }
{
    if passes(e, a, b) {
        return Walk { at: w.at + 1, ..w };
    }
    Walk {
        down: is_check(e),
        ..w
    }
}

impl Walk {
    // What it shows; the walk, with its plan, is lent and not copied.
    #[tactic(auto, using(crate::proofs::Places::shown_at), unfolding(crate::specs::Walk::stand_of))]
    fn shown(&self) -> Shown
        ensures { result ≡ shown_of (stand_of self.now) }
    {
        if self.down {
            return Shown::Stopped(Refusal::CsiDown);
        }
        match &self.planned {
            Err(n) => Shown::Stopped(*n),
            Ok(_) => match entries::entry_at(&self.planned, self.at) {
                Some(e) => Shown::Next(e),
                None => Shown::Finished,
            },
        }
    }
}

impl Steps for Walk {
    ghost stand = { stand_of };

    ghost rule = { λ w. stepped_of };

    ghost after = { stepped_walk };

    fn shows(self) -> Shown {
        self.shown()
    }

    #[tactic(auto, unfolding(crate::specs::Walk::stepped_walk), using(crate::proofs::Places::fits, crate::proofs::Laws::step_stands, crate::proofs::Laws::passed_stands))]
    fn stepped(self, a: u32, b: u32) -> Walk {
        match self.shown() {
            Shown::Next(e) => passed(self, e, a, b),
            Shown::Finished => self,
            Shown::Stopped(_) => self,
        }
    }
}

// A whole walk over values that were read, two for each step: what was shown before any step and after each, as nine words each. The answer
// counts them.
pub fn run(planned: &Result<Plan, Refusal>, reads: &[u32], shown: &mut [u32]) -> usize
    ensures count { result ≡ shown_count (length reads.now) (length shown.old) }
    ensures shown { shown.new ≡ ran stepped_of (fresh_of planned.now) reads.now shown.old result }
{
    listing::show_walk(planned, reads, shown)
}
