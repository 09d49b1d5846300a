// Bytes as text: where a byte stands, the number of a name, numbers and hertz in decimal. No clock is mentioned.
#![tactic(auto)]

ghost use Rattle.std.specs.Prelude.{◌≡◌, ◌==◌, true, false, length, position, MatchOption, IfSome, option_copied, ◌<◌};
ghost use Rattle.std.specs.List.{list_all};
ghost use Rattle.std.proofs.lemmas.List.Edits.{sets};
ghost use Rattle.text.specs.Names.{before, behind, lacks, rest_behind, column, is_name, texts_of, number_in};
ghost use Rattle.text.specs.Numbers.{read_some, hertz_of};

mod decimal;
mod unit;

use unit::HERTZ;

// The place of the first byte b.
fn position(s: &[u8], b: u8) -> Option<usize>
    ensures { result ≡ position (λ x. x == b) s.now }
{
    s.iter().position(|here| *here == b)
}

// The place of the first byte b; the length where there is none.
pub fn find(s: &[u8], b: u8) -> usize
    ensures { result ≡ length (before b s.now) }
{
    position(s, b).unwrap_or(s.len())
}

// What stands before the first byte b and behind it; none where there is none.
#[tactic(auto, using(crate::proofs::Parts::none_there))]
fn split_once(s: &[u8], b: u8) -> Option<(&[u8], &[u8])>
    ensures { MatchOption result (lacks b s.now ≡ true) (λ x. (lacks b s.now ≡ false) × (x.0.now ≡ before b s.now) × (x.1.now ≡ behind b s.now)) }
{
    let at = position(s, b)?;
    Some((&s[..at], &s[at + 1..]))
}

// What stands before the first byte b, and behind it where there is one.
pub fn around(s: &[u8], b: u8) -> (&[u8], Option<&[u8]>)
    ensures front { result.0.now ≡ before b s.now }
    ensures rest { option_copied result.1 ≡ rest_behind b s.now }
{
    match split_once(s, b) {
        Some((front, rest)) => (front, Some(rest)),
        None => (s, None),
    }
}

// Stores bytes from a place on, as far as there is room.
#[tactic(auto, using(crate::proofs::Stores::stored, room::proofs::Written::past))]
pub fn store(room: &mut [u8], at: usize, s: &[u8])
    ensures { room.new ≡ sets room.old at s.now }
{
    if at < room.len() {
        let n = s.len().min(room.len() - at);
        room[at..at + n].copy_from_slice(&s[..n]);
    }
}

fn is_blank(s: &[u8]) -> bool
    ensures { result ≡ list_all (λ b. b == 32) s.now }
{
    s.iter().all(|b| *b == b' ')
}

// Whether a name in its column, with blanks behind it up to twelve bytes, is the given one with blanks behind it. Most of a table's names
// begin otherwise, so that is asked first.
#[tactic(auto, using(crate::proofs::Named::unlike, crate::proofs::Named::same, crate::proofs::Named::listed_on, crate::proofs::Named::other, crate::proofs::Named::long))]
pub fn is_name(listed: &[u8], name: &[u8]) -> bool
    ensures { result ≡ is_name (column listed.now) name.now }
{
    if let (Some(a), Some(b)) = (listed.first(), name.first()) {
        if a != b {
            return false;
        }
    }
    let both = listed.len().min(name.len());
    if listed[..both] != name[..both] {
        return false;
    }
    if name.len() > listed.len().max(12) {
        return false;
    }
    is_blank(&listed[both..]) && is_blank(&name[both..])
}

// The number of a name in a table of names; none where it is none of them.
pub fn name_number(names: &[&[u8]], name: &[u8]) -> Option<usize>
    ensures number { result ≡ number_in (texts_of names.now) name.now }
    ensures inside { IfSome result (λ k. k < length names.now) }
{
    names.iter().position(|listed| is_name(listed, name))
}

// A number in decimal, below 2^32.
pub fn whole(s: &[u8]) -> Option<u32>
    ensures { result ≡ read_some 0 s.now }
{
    decimal::read_some(0, s)
}

// Hertz: a number, with a point in it or not, and k or M behind it or not.
#[tactic(auto, using(crate::proofs::Digits::in_unit, crate::proofs::Digits::in_none, crate::proofs::Digits::none_told))]
pub fn hertz(s: &[u8]) -> Option<u32>
    ensures { result ≡ hertz_of s.now }
{
    let Some((last, rest)) = s.split_last() else {
        return decimal::pointed(s, HERTZ);
    };
    match decimal::unit_of(*last) {
        Some(unit) => decimal::pointed(rest, unit),
        None => decimal::pointed(s, HERTZ),
    }
}
