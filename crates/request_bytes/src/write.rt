// A request's bytes, written one behind the other.
ghost use Rattle.rules.specs.Document01.Bytes.{u32le_bytes, hertz_bytes, third_bytes, request_bytes};
ghost use Rattle.room.specs.Write.{Wrote};
ghost use Rattle.request_bytes.specs.Writing.{three_bytes, clocks_bytes, part_bytes, mco1_bytes, mco2_bytes, outputs_bytes, plls_bytes};

use room::Room;
use types::{Mco1Source, Mco2Source, PllRequest, Request};

// A word, little-endian.
#[tactic(auto, using(room::proofs::Written::parts))]
fn u32le(out: &mut Room<u8>, n: u32)
    ensures { Wrote out.old out.new (u32le_bytes n) }
{
    let bytes = n.to_le_bytes();
    out.put(bytes[0]);
    out.put(bytes[1]);
    out.put(bytes[2]);
    out.put(bytes[3]);
}

#[tactic(auto, using(room::proofs::Written::parts))]
fn hertz(out: &mut Room<u8>, h: Option<u32>)
    ensures { Wrote out.old out.new (hertz_bytes h) }
{
    out.put(h.is_some() as u8);
    u32le(out, h.unwrap_or(0));
}

// Three hertz in a row.
#[tactic(auto, using(room::proofs::Written::parts))]
fn three(out: &mut Room<u8>, a: Option<u32>, b: Option<u32>, c: Option<u32>)
    ensures { Wrote out.old out.new (three_bytes a b c) }
{
    hertz(out, a);
    hertz(out, b);
    hertz(out, c);
}

// A PLL's part.
#[tactic(auto, using(room::proofs::Written::parts), unfolding(crate::specs::Writing::part_bytes))]
fn part(out: &mut Room<u8>, a: PllRequest)
    ensures { Wrote out.old out.new (part_bytes a) }
{
    out.put(a.strategy as u8);
    three(out, a.p, a.q, a.r);
}

#[tactic(auto, using(room::proofs::Written::parts), unfolding(crate::specs::Writing::clocks_bytes))]
fn clocks(out: &mut Room<u8>, q: Request)
    ensures { Wrote out.old out.new (clocks_bytes q) }
{
    three(out, q.hse, q.lse, q.audio);
    three(out, q.system, q.peripheral, q.ahb);
    three(out, q.apb1, q.apb2, q.apb3);
}

// The bypass flag, and MCO1 with its source.
#[tactic(auto, using(room::proofs::Written::parts, crate::proofs::Writing::codes), unfolding(crate::specs::Writing::mco1_bytes))]
fn mco1(out: &mut Room<u8>, bypass: bool, source: Mco1Source, mco1: Option<u32>)
    ensures { Wrote out.old out.new (mco1_bytes bypass source mco1) }
{
    out.put(bypass as u8);
    out.put(source as u8);
    hertz(out, mco1);
}

// MCO2 with its source.
#[tactic(auto, using(room::proofs::Written::parts, crate::proofs::Writing::codes), unfolding(crate::specs::Writing::mco2_bytes))]
fn mco2(out: &mut Room<u8>, source: Mco2Source, mco2: Option<u32>)
    ensures { Wrote out.old out.new (mco2_bytes source mco2) }
{
    out.put(source as u8);
    hertz(out, mco2);
}

#[tactic(auto, using(room::proofs::Written::parts))]
fn outputs(out: &mut Room<u8>, q: Request)
    ensures { Wrote out.old out.new (outputs_bytes q) }
{
    mco1(out, q.bypass, q.mco1source, q.mco1);
    mco2(out, q.mco2source, q.mco2);
}

// The PLL3 part is there on three PLLs only.
#[tactic(auto, unfolding(crate::specs::Writing::part_bytes))]
fn third(out: &mut Room<u8>, three: bool, a: PllRequest)
    ensures { Wrote out.old out.new (third_bytes three a) }
{
    if three {
        part(out, a);
    }
}

// The PLLs' parts.
#[tactic(auto, using(room::proofs::Written::parts), unfolding(crate::specs::Writing::plls_bytes))]
fn plls(out: &mut Room<u8>, three: bool, q: Request)
    ensures { Wrote out.old out.new (plls_bytes three q) }
{
    part(out, q.plls[0]);
    part(out, q.plls[1]);
    third(out, three, q.plls[2]);
}

// The whole request.
#[tactic(auto, using(room::proofs::Written::parts, crate::proofs::Writing::groups))]
pub fn request(out: &mut Room<u8>, three: bool, q: Request)
    ensures { Wrote out.old out.new (request_bytes three q) }
{
    clocks(out, q);
    outputs(out, q);
    plls(out, three, q);
}
