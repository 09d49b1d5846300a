// The voltage walk from each scale to each on the simulated chip, a line for each.
use crate::{chip, entry};
use print::{named, say};
use pwr::VoltageWalk;
use types::{Entry, Shown};
use words::steps::Steps;

pub fn all() {
    for target in 0..4 {
        from_each(target);
    }
}

fn from_each(target: u32) {
    for actual in 0..4 {
        named(b"   Scale", actual);
        named(b" to Scale", target);
        walk(target, actual);
        say(b"\n");
    }
}

// Waits come up at once here: the register walk shows how one is shown again.
fn walk(target: u32, actual: u32) {
    let mut w = pwr::fresh(target);
    for _ in 0..5 {
        one(&mut w, actual);
    }
}

fn one(w: &mut VoltageWalk, actual: u32) {
    match w.shows() {
        Shown::Next(e) => {
            say(b"; ");
            entry::show(e);
            w.step(read(e, actual), 0);
        }
        Shown::Finished => {}
        Shown::Stopped(n) => named(b": refused ", refusal::number_of(n)),
    }
}

// ACTVOS holds 3 less the scale.
fn read(e: Entry, actual: u32) -> u32 {
    match e {
        Entry::Read(_) => if actual < 4 { 3 - actual } else { 0 },
        _ => chip::read(e, 2).a,
    }
}
