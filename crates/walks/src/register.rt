// The register walk of a plan on the simulated chip, each thing shown on a line; a wait that is shown again is counted.
use crate::chip::Reads;
use crate::{chip, entry};
use print::{named, say};
use types::{Entry, Plan, Refusal, Shown};
use walk::Walk;
use words::steps::Steps;

pub fn walk(planned: Result<Plan, Refusal>) {
    let mut w = walk::fresh(planned);
    let mut shown = w.shows();
    let mut times: u32 = 0;
    for _ in 0..256 {
        let at = w.at;
        shown = one(&mut w, shown, times);
        times = if w.at == at {
            times.saturating_add(1)
        } else {
            0
        };
    }
}

// A line for what is shown, if it was not shown before, and a step with what the chip shows; what is shown next.
fn one(w: &mut Walk, shown: Shown, times: u32) -> Shown {
    match shown {
        Shown::Next(e) => {
            let r = line(e, times);
            return w.step(r.a, r.b);
        }
        Shown::Finished => {
            if times == 0 {
                say(b"   finished\n");
            }
        }
        Shown::Stopped(n) => {
            if times == 0 {
                named(b"   refused ", refusal::number_of(n));
                say(b"\n");
            }
        }
    }
    shown
}

fn line(e: Entry, times: u32) -> Reads {
    if times == 0 {
        say(b"   ");
        entry::show(e);
        say(b"\n");
    } else {
        say(b"   ... again\n");
    }
    chip::read(e, times)
}
