// The reset reason of every set of the six flags, on two PLLs.
use print::{named, say};
use types::{Refusal, Reset, ResetReason};

// The flags, from bit 26 of the register on.
const FLAGS: [&[u8]; 6] = [b" PIN", b" BOR", b" SFT", b" IWDG", b" WWDG", b" LPWR"];

pub fn all() {
    for set in 0..64 {
        one(set);
    }
}

fn one(set: u32) {
    say(b"  ");
    if set == 0 {
        say(b" none");
    }
    for (k, name) in FLAGS.iter().enumerate() {
        if set >> k & 1 == 1 {
            say(name);
        }
    }
    say(b": ");
    answer(reset_reason::reset_reason(2, set << 26));
    say(b"\n");
}

fn answer(x: Result<Reset, Refusal>) {
    match x {
        Ok(r) => {
            reason(r.reason);
            named(b", write back ", r.write_back)
        }
        Err(n) => named(b"refused ", refusal::number_of(n)),
    }
}

fn reason(r: ResetReason) {
    match r {
        ResetReason::PowerOnReset => say(b"power-on reset"),
        ResetReason::PinReset => say(b"pin reset"),
        ResetReason::SystemReset => say(b"system reset"),
        ResetReason::WindowWatchdogReset => say(b"window watchdog reset"),
        ResetReason::IndependentWatchdogReset => say(b"independent watchdog reset"),
        ResetReason::GenericWatchdogReset => say(b"watchdog reset, either one"),
        ResetReason::IllegalStopEntryReset => say(b"illegal stop entry reset"),
        ResetReason::Unknown(word) => named(b"unknown ", word),
    }
}
