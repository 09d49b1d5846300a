// The voltage walk: pwr.rs, Pwr::freeze, one entry at a time.
#![tactic(auto)]

ghost use Rattle.std.specs.Prelude.{◌≡◌, ◌<◌, length};
ghost use Rattle.rules.specs.Document01.Walk.{shown_of, voltage_to, voltage_stepped};
ghost use Rattle.rules.specs.Words.{shown_count, ran};
ghost use Rattle.pwr.specs.Walk.{stand_of, fresh_walk, place_after, stepped_walk};

use fields::{ACTVOS, ACTVOSRDY, VOS, VOSRDY};
use types::{Entry, Refusal, Shown};
use words::steps::Steps;

// The target's scale, and the place: 0 before the wait for ACTVOSRDY, 1 before the read of ACTVOS, 2 before VOS is set, 3 before the wait for
// VOSRDY, 4 and above finished. Numbers and no enums, as a caller may hand in any.
#[derive(Clone, Copy)]
pub struct VoltageWalk {
    pub target: u32,
    pub at: u32,
}

// A walk that has not been stepped.
#[tactic(auto, unfolding(crate::specs::Walk::entries_from, crate::specs::Walk::stand_of))]
pub fn fresh(target: u32) -> VoltageWalk
    ensures walk { result ≡ fresh_walk target }
    ensures rules { stand_of result ≡ voltage_to target }
{
    VoltageWalk { target, at: 0 }
}

// The place after a step that reads a.
#[tactic(auto, unfolding(crate::specs::Walk::place_after))]
fn place_after(target: u32, at: u32, a: u32) -> u32
    requires { target < 4 }
    ensures { result ≡ place_after target at a }
{
    match at {
        0 => if a == 1 { 1 } else { 0 },
        1 => if a == 3 - target { 4 } else { 2 },
        2 => 3,
        3 => if a == 1 { 4 } else { 3 },
        _ => at,
    }
}

impl Steps for VoltageWalk {
    ghost stand = { stand_of };

    ghost rule = { λ w. voltage_stepped w.target };

    ghost after = { stepped_walk };

    #[tactic(auto, unfolding(crate::specs::Walk::entries_from, crate::specs::Walk::stand_of))]
    fn shows(self) -> Shown {
        let target = self.target;
        if target > 3 {
            return Shown::Stopped(Refusal::OutsideCodes);
        }
        match self.at {
            0 => Shown::Next(Entry::Wait(ACTVOSRDY, 1)),
            1 => Shown::Next(Entry::Read(ACTVOS)),
            2 => Shown::Next(Entry::Set(VOS, 3 - target)),
            3 => Shown::Next(Entry::Wait(VOSRDY, 1)),
            _ => Shown::Finished,
        }
    }

    #[tactic(auto, using(crate::proofs::Laws::steps))]
    fn stepped(self, a: u32, _b: u32) -> VoltageWalk {
        let target = self.target;
        if target < 4 {
            return VoltageWalk {
                target,
                at: place_after(target, self.at, a),
            };
        }
        self
    }
}

// A whole walk over values that were read, two for each step: what was shown before any step and after each, as nine words each. The answer
// counts them.
pub fn run(target: u32, reads: &[u32], shown: &mut [u32]) -> usize
    ensures count { result ≡ shown_count (length reads.now) (length shown.old) }
    ensures shown { shown.new ≡ ran (voltage_stepped target) (voltage_to target) reads.now shown.old result }
{
    fresh(target).run(reads, shown)
}
