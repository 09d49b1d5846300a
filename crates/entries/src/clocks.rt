// LSI, the flash, CSI, HSI48, the clock outputs and HSE.
ghost use Rattle.std.specs.Prelude.{◌≡◌};
ghost use Rattle.rules.specs.Document01.Entries.{clock_entries, hse_entries};
ghost use Rattle.entries.specs.Sink.{told};

use crate::sink::Sink;
use fields::*;
use types::{Mcos, Selectors, Waits};

// LSI; flash; CSI; HSI48; the MCOs.
#[tactic(auto, unfolding(rules::specs::Document01::Entries::clock_entries))]
pub fn clocks<S: Sink>(w: Waits, sel: &Selectors, m: &Mcos, s: &mut S, room: &mut [u32])
    ensures { (s.new, room.new) ≡ told S.after (clock_entries w sel.now m.now) (s.old, room.old) }
{
    if s.passes(9) {
        return;
    }
    s.set(LSION, 1, room);
    s.wait(LSIRDY, 1, room);
    let p = prften(w.latency);
    s.set3(WRHIGHFREQ, w.delay, LATENCY, w.latency, PRFTEN, p, room);
    s.wait(LATENCY, w.latency, room);
    s.set(CSION, 1, room);
    s.wait(CSIRDY, 1, room);
    s.set(HSI48ON, 1, room);
    s.wait(HSI48RDY, 1, room);
    s.set4(
        MCO1SEL,
        sel.mco1sel,
        MCO1PRE,
        m.mco1.pre,
        MCO2SEL,
        sel.mco2sel,
        MCO2PRE,
        m.mco2.pre,
        room,
    )
}

// With HSE: HSEON, HSEBYP together, wait HSERDY.
pub fn hse_on<S: Sink>(hse: Option<u32>, bypass: bool, s: &mut S, room: &mut [u32])
    ensures { (s.new, room.new) ≡ told S.after (hse_entries hse bypass) (s.old, room.old) }
{
    if hse.is_some() {
        s.set2(HSEON, 1, HSEBYP, u32::from(bypass), room);
        s.wait(HSERDY, 1, room)
    }
}
