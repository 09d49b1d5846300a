// The byte form of a request, read beside the chip's numbers: document 01, One call, from the top, second paragraph, and refusal 1.
#![tactic(auto)]

ghost use Rattle.std.specs.Prelude.{◌≡◌};
ghost use Rattle.rules.specs.Document01.Bytes.{size_of};
ghost use Rattle.rules.specs.Document01.Plan.{request_of};
ghost use Rattle.request.specs.Request.{part_of};

use bytes::Bytes;
use form::Form;
use types::{Asked, Chip, PllRequest, Refusal};

mod bytes;
mod form;
mod formed;
mod numbers;
mod parts;

// 90 bytes on two PLLs, 106 on three.
pub fn size_of(three: bool) -> usize
    ensures { result ≡ size_of three }
{
    if three { 106 } else { 90 }
}

// The request that the bytes stand for, and the chip that the numbers stand for, or refusal 1.
#[tactic(auto, using(crate::proofs::Reading::reads), unfolding(rules::specs::Document01::Plan::request_of))]
pub fn read_request(bytes: &[u8], chip: Chip) -> Result<Asked, Refusal>
    ensures { result ≡ request_of bytes.now chip }
{
    let chip = numbers::chip_of(chip)?;
    if bytes.len() != size_of(chip.three) {
        return Err(Refusal::OutsideCodes);
    }
    let form = Form {
        bytes,
        three: chip.three,
    };
    if !formed::formed(&form) {
        return Err(Refusal::OutsideCodes);
    }
    let request = parts::decode(&form)?;
    Ok(Asked { request, chip })
}

// Bytes of a PLL's part.
const PART: usize = 16;

// The part that 16 bytes stand for, or refusal 1.
#[tactic(auto, using(crate::proofs::Reading::part_reads))]
pub fn read_part(bytes: &[u8]) -> Result<PllRequest, Refusal>
    ensures { result ≡ part_of bytes.now }
{
    if bytes.len() != PART {
        return Err(Refusal::OutsideCodes);
    }
    let part = Bytes { of: bytes, at: 0 };
    if !formed::part_formed(part) {
        return Err(Refusal::OutsideCodes);
    }
    parts::part(part)
}
