// The bytes of a request in hexadecimal.
ghost use Rattle.std.specs.Prelude.{◌≡◌, ◌+◌, ◌*◌, ◌/◌, ◌≤◌, ◌<◌, length, unwrap_or, is_some, IfSome};
ghost use Rattle.std.specs.List.{list_all};
ghost use Rattle.std.proofs.lemmas.List.Edits.{sets};
ghost use Rattle.ask.specs.Sheet.{nibble, digit_value, is_hex, hex_bytes, hex_fits, bytes_wrong, with_bytes};

use crate::{Kind, Wrong};

// A digit's value.
fn nibble(b: u8) -> Option<u8>
    ensures value { result ≡ nibble b }
    ensures small { IfSome result (λ d. d < 16) }
{
    match b {
        b'0'..=b'9' => Some(b - b'0'),
        b'a'..=b'f' => Some(b - b'a' + 10),
        b'A'..=b'F' => Some(b - b'A' + 10),
        _ => None,
    }
}

// The byte of two digits; 0 stands for what is none.
fn byte_of(a: u8, b: u8) -> u8
    ensures { result ≡ 16 * digit_value a + digit_value b }
{
    16 * nibble(a).unwrap_or(0) + nibble(b).unwrap_or(0)
}

fn are_digits(v: &[u8]) -> bool
    ensures { result ≡ list_all (λ b. is_some (nibble b)) v.now }
{
    v.iter().all(|b| nibble(*b).is_some())
}

// Whether all are digits, an even number of them.
fn is_hex(v: &[u8]) -> bool
    ensures { result ≡ is_hex v.now }
{
    are_digits(v) && v.len() % 2 == 0
}

// The bytes, from a place on, as far as there is room. By number: a chain over chunks_exact leaves open that its chunks are the pairs of v.
#[tactic(auto, using(crate::proofs::Pairs::starts, crate::proofs::Pairs::stores_on, crate::proofs::Pairs::ends))]
fn store_hex(sheet: &mut [u8], at: usize, v: &[u8])
    requires { at + length v.now / 2 ≤ 106 }
    ensures { sheet.new ≡ sets sheet.old at (hex_bytes v.now) }
{
    for i in 0..v.len() / 2 {
        text::store(sheet, at + i, &[byte_of(v[2 * i], v[2 * i + 1])]);
    }
}

// Whether they are digits, and fit behind the `at` bytes that are given already.
fn has_room(at: usize, v: &[u8]) -> bool
    requires { at < 256 }
    ensures { result ≡ hex_fits at v.now }
{
    is_hex(v) && at + v.len() / 2 <= sheet::CHIP
}

// The value of bytes=, behind what is given already; wrong where it is not hexadecimal or does not fit.
pub fn take_bytes(sheet: &mut [u8], v: &[u8]) -> Result<(), Wrong>
    ensures wrong { result ≡ bytes_wrong sheet.old v.now }
    ensures sheet { sheet.new ≡ with_bytes sheet.old v.now }
{
    let at = usize::from(sheet.get(sheet::GIVEN).copied().unwrap_or(0));
    if !has_room(at, v) {
        return Err(Wrong::Value(Kind::Digits));
    }
    store_hex(sheet, at, v);
    text::store(sheet, sheet::GIVEN, &[(at + v.len() / 2) as u8]);
    Ok(())
}
