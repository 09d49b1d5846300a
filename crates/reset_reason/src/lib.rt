// Why the chip was reset, and the word that clears the flags: reset_reason.rs, get_reset_reason.
#![tactic(auto)]

ghost use Rattle.std.specs.Prelude.{◌≡◌, false};
ghost use Rattle.rules.specs.Document01.ResetReason.{reason_of, write_back_of, reset_of};

use types::{Refusal, Reset, ResetReason};

// The flags of RCC_RSR from bit 26 up, with PIN first: the sets that tell a reason.
const PIN: u32 = 1;

const PIN_BOR: u32 = PIN + 2;

const PIN_SFT: u32 = PIN + 4;

const PIN_IWDG: u32 = PIN + 8;

const PIN_WWDG: u32 = PIN + 16;

const PIN_LPWR: u32 = PIN + 32;

const PIN_IWDG_WWDG: u32 = PIN + 8 + 16;

// The reason by the six flags, on two PLLs.
#[tactic(auto, using(crate::proofs::High::high_is))]
fn reason_of(word: u32) -> ResetReason
    ensures { result ≡ reason_of false word }
{
    match word >> 26 {
        PIN => ResetReason::PinReset,
        PIN_BOR => ResetReason::PowerOnReset,
        PIN_SFT => ResetReason::SystemReset,
        PIN_WWDG => ResetReason::WindowWatchdogReset,
        PIN_IWDG => ResetReason::IndependentWatchdogReset,
        PIN_LPWR => ResetReason::IllegalStopEntryReset,
        PIN_IWDG_WWDG => ResetReason::GenericWatchdogReset,
        _ => ResetReason::Unknown(word),
    }
}

// The word as read with RMVF set: bit 23.
#[tactic(auto, unfolding(rules::specs::Document01::ResetReason::write_back_of))]
fn write_back_of(word: u32) -> u32
    ensures { result ≡ write_back_of word }
{
    if (word >> 23) % 2 == 1 {
        return word;
    }
    word + 8_388_608
}

// PLLs of the chips that each manual is for.
const RM0492: u32 = 2;

const RM0481: u32 = 3;

// A word of RCC_RSR on a chip with so many PLLs; on three the reason is always unknown.
#[tactic(auto, unfolding(rules::specs::Document01::ResetReason::reset_of, rules::specs::Document01::ResetReason::reason_of))]
pub fn reset_reason(plls: u32, word: u32) -> Result<Reset, Refusal>
    ensures { result ≡ reset_of plls word }
{
    let write_back = write_back_of(word);
    if plls == RM0492 {
        let reason = reason_of(word);
        return Ok(Reset { reason, write_back });
    }
    if plls == RM0481 {
        let reason = ResetReason::Unknown(word);
        return Ok(Reset { reason, write_back });
    }
    Err(Refusal::OutsideCodes)
}
