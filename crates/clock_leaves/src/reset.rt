// The reset reason, on numbers.
ghost use Rattle.std.specs.Prelude.{◌≡◌, eqb, length};
ghost use Rattle.rules.specs.Document01.ResetReason.{reset_of};
ghost use Rattle.clock_leaves.specs.Leaves.{leaf_code};
ghost use Rattle.clock_leaves.specs.Reasons.{reason_code, reason_room};

use crate::three;
use types::ResetReason;

// By hand, since `as` takes no enum with a word in one variant.
fn reason_code(r: ResetReason) -> u32
    ensures { result ≡ reason_code r }
{
    match r {
        ResetReason::PowerOnReset => 0,
        ResetReason::PinReset => 1,
        ResetReason::SystemReset => 2,
        ResetReason::WindowWatchdogReset => 3,
        ResetReason::IndependentWatchdogReset => 4,
        ResetReason::GenericWatchdogReset => 5,
        ResetReason::IllegalStopEntryReset => 6,
        ResetReason::Unknown(_) => 7,
    }
}

// The reset reason, the word as read and the word to write back, in three words.
pub fn clock_reset_reason(plls: u32, word: u32, out: &mut [u32]) -> u32
    ensures code { result ≡ leaf_code (eqb (length out.old) 3) (reset_of plls word) }
    ensures out { out.new ≡ reason_room (eqb (length out.old) 3) (reset_of plls word) word out.old }
{
    if out.len() != 3 {
        return 1;
    }
    match reset_reason::reset_reason(plls, word) {
        Err(n) => refusal::number_of(n),
        Ok(r) => three(reason_code(r.reason), word, r.write_back, out),
    }
}
