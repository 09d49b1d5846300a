// The chip's numbers: judged, and taken.
ghost use Rattle.std.specs.Prelude.{◌≡◌};
ghost use Rattle.rules.specs.Document01.Chip.{chip_of};
ghost use Rattle.request.specs.Chips.{flags_ok};

use types::{Chip, ChipState, Hsidiv, Refusal, Scale};

// Whether the PLL count, the permissions and HSION are their codes.
#[tactic(auto, unfolding(crate::specs::Chips::flags_ok))]
fn flags_ok(chip: Chip) -> bool
    ensures { result ≡ flags_ok chip }
{
    let odd = chip.odd;
    let odds = (odd[0] < 2) & ((odd[1] < 2) & (odd[2] < 2));
    matches!(chip.plls, 2 | 3) & (odds & (chip.hsion < 2))
}

// The state that the numbers stand for, or refusal 1.
#[tactic(auto, using(crate::proofs::Chips::chip_is))]
pub fn chip_of(chip: Chip) -> Result<ChipState, Refusal>
    ensures { result ≡ chip_of chip }
{
    if !flags_ok(chip) {
        return Err(Refusal::OutsideCodes);
    }
    let odd = chip.odd;
    Ok(ChipState {
        three: chip.plls == 3,
        odd: [odd[0] == 1, odd[1] == 1, odd[2] == 1],
        scale: Scale::try_from(chip.scale)?,
        hsion: chip.hsion == 1,
        hsidiv: Hsidiv::try_from(chip.hsidiv)?,
    })
}
