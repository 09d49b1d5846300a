// What the bytes stand for, by places: a code that is none is refused where it is read.
ghost use Rattle.std.specs.Prelude.{◌≡◌};
ghost use Rattle.request.specs.Parts.{u32le_at, hertz_at, part_coded, third_coded, plls_at, strategies_ok, request_with, codes_ok, decoded, only};

use crate::bytes::Bytes;
use crate::form::Form;
use types::{Mco1Source, Mco2Source, PllRequest, Refusal, Request, Strategy};

// Four bytes, little-endian.
#[tactic(auto, unfolding(crate::specs::Parts::u32le_at))]
pub fn u32le(b: Bytes<4>) -> u32
    ensures { result ≡ u32le_at b.entry.of.now b.entry.at }
{
    u32::from_le_bytes([b.of[b.at], b.of[b.at + 1], b.of[b.at + 2], b.of[b.at + 3]])
}

#[tactic(auto, unfolding(crate::specs::Parts::hertz_at))]
fn hertz(b: Bytes<5>) -> Option<u32>
    ensures { result ≡ hertz_at b.entry.of.now b.entry.at }
{
    let number = u32le(b.part(1));
    if b.of[b.at] == 0 { None } else { Some(number) }
}

// A PLL's part.
#[tactic(auto, using(types::proofs::Coded::coded_is))]
pub fn part(b: Bytes<16>) -> Result<PllRequest, Refusal>
    ensures { result ≡ part_coded b.entry.of.now b.entry.at }
{
    Ok(PllRequest {
        strategy: Strategy::try_from(b.of[b.at])?,
        p: hertz(b.part(1)),
        q: hertz(b.part(6)),
        r: hertz(b.part(11)),
    })
}

// The PLL3 part, where there is one.
fn third(f: &Form) -> Result<PllRequest, Refusal>
    ensures { result ≡ third_coded f.now.three f.now.bytes.now }
{
    if f.three {
        part(f.from(90))
    } else {
        Ok(PllRequest::default())
    }
}

fn plls(f: &Form) -> Result<[PllRequest; 3], Refusal>
    ensures { result ≡ only (strategies_ok f.now.three f.now.bytes.now) (plls_at f.now.three f.now.bytes.now) }
{
    Ok([part(f.from(58))?, part(f.from(74))?, third(f)?])
}

// A request by its sources and PLLs: what else it has is read from its bytes.
#[tactic(auto, unfolding(crate::specs::Parts::request_with))]
fn request_with(
    f: &Form,
    mco1source: Mco1Source,
    mco2source: Mco2Source,
    plls: [PllRequest; 3],
) -> Request
    ensures { result ≡ request_with f.now.bytes.now mco1source mco2source plls }
{
    Request {
        hse: hertz(f.from(0)),
        lse: hertz(f.from(5)),
        audio: hertz(f.from(10)),
        system: hertz(f.from(15)),
        peripheral: hertz(f.from(20)),
        ahb: hertz(f.from(25)),
        apb1: hertz(f.from(30)),
        apb2: hertz(f.from(35)),
        apb3: hertz(f.from(40)),
        bypass: f.bytes[45] == 1,
        mco1source,
        mco1: hertz(f.from(47)),
        mco2source,
        mco2: hertz(f.from(53)),
        plls,
    }
}

// The whole request, or refusal 1 for a code that is none.
#[tactic(auto, using(types::proofs::Coded::coded_is, crate::proofs::Decoding::decodes), unfolding(crate::specs::Parts::codes_ok))]
pub fn decode(f: &Form) -> Result<Request, Refusal>
    ensures { result ≡ only (codes_ok f.now.three f.now.bytes.now) (decoded f.now.three f.now.bytes.now) }
{
    let mco1source = Mco1Source::try_from(f.bytes[46])?;
    let mco2source = Mco2Source::try_from(f.bytes[52])?;
    let plls = plls(f)?;
    Ok(request_with(f, mco1source, mco2source, plls))
}
