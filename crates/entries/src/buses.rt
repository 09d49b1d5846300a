// The prescalers, the selectors, the check of CSIRDY and the compensation cell: the list ends with them.
ghost use Rattle.std.specs.Prelude.{◌≡◌};
ghost use Rattle.rules.specs.Document01.Entries.{bus_entries};
ghost use Rattle.entries.specs.Sink.{told};

use crate::sink::Sink;
use fields::*;
use types::{Buses, Selectors};

// HPRE, PPRE1 to 3; CKPERSEL; TIMPRE; SW; the check; SBSEN; EN1 1, CS1 0, EN2 1, CS2 0.
#[tactic(auto, unfolding(rules::specs::Document01::Entries::bus_entries))]
pub fn buses<S: Sink>(b: &Buses, sel: &Selectors, s: &mut S, room: &mut [u32])
    ensures { (s.new, room.new) ≡ told S.after (bus_entries b.now sel.now) (s.old, room.old) }
{
    if s.passes(10) {
        return;
    }
    s.set4(
        HPRE, b.ahb.pre, PPRE1, b.apb1.pre, PPRE2, b.apb2.pre, PPRE3, b.apb3.pre, room,
    );
    s.wait(HPRE, b.ahb.pre, room);
    s.set(CKPERSEL, sel.ckpersel, room);
    s.set(TIMPRE, 0, room);
    s.set(SW, sel.sw, room);
    s.wait(SWS, sel.sw, room);
    s.check(CSIRDY, 1, room);
    s.set(SBSEN, 1, room);
    s.set4(EN1, 1, CS1, 0, EN2, 1, CS2, 0, room);
    s.wait2(RDY1, 1, RDY2, 1, room)
}
