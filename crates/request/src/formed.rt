// Whether the hertz and the bypass flag are well-formed, by places. What is wrong is gathered as a number by `|`, 0 for nothing, and tested once: a
// branch at each byte would cost more than it spares, as most requests are well-formed.
ghost use Rattle.std.specs.Prelude.{◌≡◌, ◌+◌};
ghost use Rattle.request.specs.Parts as Parts;
ghost use Rattle.request.specs.Parts.{Finds, code_ok, hertz_is, hertz_ok, three_ok, third_hertz_ok, clocks_ok, outputs_ok, plls_ok};

use crate::bytes::Bytes;
use crate::form::Form;
use crate::parts;

// A flag: a byte below 2.
fn flag(b: Bytes<1>) -> u32
    ensures { Finds result (code_ok 2 b.entry.of.now b.entry.at) }
{
    (2 <= b.of[b.at]) as u32
}

// 0 and the number 0, or 1 and any number.
fn set_or_zero(set: u8, number: u32) -> u32
    ensures { Finds result (hertz_is set number) }
{
    if set == 0 {
        return number;
    }
    set as u32 - 1
}

// A hertz: 0 and four zeros, or 1 and any four bytes.
#[tactic(auto, unfolding(crate::specs::Parts::hertz_ok))]
fn hertz(b: Bytes<5>) -> u32
    ensures { Finds result (hertz_ok b.entry.of.now b.entry.at) }
{
    set_or_zero(b.of[b.at], parts::u32le(b.part(1)))
}

// Three hertz in a row.
#[tactic(auto, using(crate::proofs::Wrong::both), unfolding(crate::specs::Parts::three_ok))]
fn three(b: Bytes<15>) -> u32
    ensures { Finds result (three_ok b.entry.of.now b.entry.at) }
{
    hertz(b.part(0)) | (hertz(b.part(5)) | hertz(b.part(10)))
}

// P, Q and R of the PLL3 part, where there is one.
fn third(f: &Form) -> u32
    ensures { Finds result (third_hertz_ok f.now.three f.now.bytes.now) }
{
    if f.three {
        return three(f.from(91));
    }
    0
}

#[tactic(auto, using(crate::proofs::Wrong::both), unfolding(crate::specs::Parts::clocks_ok))]
fn clocks(f: &Form) -> u32
    ensures { Finds result (clocks_ok f.now.bytes.now) }
{
    three(f.from(0)) | (three(f.from(15)) | three(f.from(30)))
}

// The bypass flag, and the hertz of MCO1 and MCO2.
#[tactic(auto, using(crate::proofs::Wrong::both), unfolding(crate::specs::Parts::outputs_ok))]
fn outputs(f: &Form) -> u32
    ensures { Finds result (outputs_ok f.now.bytes.now) }
{
    flag(f.from(45)) | (hertz(f.from(47)) | hertz(f.from(53)))
}

#[tactic(auto, using(crate::proofs::Wrong::both), unfolding(crate::specs::Parts::plls_ok))]
fn plls(f: &Form) -> u32
    ensures { Finds result (plls_ok f.now.three f.now.bytes.now) }
{
    three(f.from(59)) | (three(f.from(75)) | third(f))
}

// The whole request.
#[tactic(auto, using(crate::proofs::Wrong::both), unfolding(crate::specs::Parts::formed))]
pub fn formed(f: &Form) -> bool
    ensures { result ≡ Parts.formed f.now.three f.now.bytes.now }
{
    (clocks(f) | (outputs(f) | plls(f))) == 0
}

// P, Q and R of one PLL's part.
pub fn part_formed(b: Bytes<16>) -> bool
    ensures { result ≡ three_ok b.entry.of.now (b.entry.at + 1) }
{
    three(b.part(1)) == 0
}
