// Digits, a point among them, and a unit behind them.
ghost use Rattle.std.specs.Prelude.{◌≡◌, ◌≤◌, MatchOption, Some, None};
ghost use Rattle.text.specs.Numbers.{read_digit, read_on, read_some, times_ten, with_places, pointed_by, unit_of};

use crate::split_once;
use crate::unit::{KILO, MEGA, Unit};

// A number with one more digit; none where the byte is no digit, or the number reaches 2^32.
fn read_digit(v: u32, b: u8) -> Option<u32>
    ensures { result ≡ read_digit v b }
{
    if !b.is_ascii_digit() {
        return None;
    }
    let tens = v.checked_mul(10)?;
    tens.checked_add(u32::from(b - b'0'))
}

// Digits read on from v.
#[tactic(auto, using(crate::proofs::Parts::left_one, crate::proofs::Parts::left_none), unfolding(crate::specs::Numbers::read_on))]
fn read_on(v: u32, s: &[u8]) -> Option<u32>
    ensures { result ≡ read_on v s.now }
{
    let mut value = v;
    for b in s {
        value = read_digit(value, *b)?;
    }
    Some(value)
}

// At least one digit.
#[tactic(auto, unfolding(crate::specs::Numbers::read_some))]
pub fn read_some(v: u32, s: &[u8]) -> Option<u32>
    ensures { result ≡ read_some v s.now }
{
    if s.is_empty() {
        return None;
    }
    read_on(v, s)
}

const TENS: [u32; 7] = [1, 10, 100, 1_000, 10_000, 100_000, 1_000_000];

// A number times 10^k.
fn times_ten(k: usize, v: u32) -> Option<u32>
    requires { k ≤ 6 }
    ensures { result ≡ times_ten k v }
{
    v.checked_mul(TENS[k])
}

// A unit: k for kilo, M for mega; none for any other byte.
pub fn unit_of(b: u8) -> Option<Unit>
    ensures { MatchOption result (None ≡ unit_of b) (λ unit. Some unit.zeros ≡ unit_of b) }
{
    match b {
        b'k' => Some(KILO),
        b'M' => Some(MEGA),
        _ => None,
    }
}

// Digits before and behind a point, in a unit.
#[tactic(auto, unfolding(crate::specs::Numbers::with_places))]
fn with_places(unit: Unit, whole: &[u8], places: &[u8]) -> Option<u32>
    ensures { result ≡ with_places unit.zeros whole.now places.now }
{
    let zeros = unit.zeros.checked_sub(places.len())?;
    times_ten(zeros, read_some(read_some(0, whole)?, places)?)
}

// Digits with a point among them or not, in a unit.
#[tactic(auto, unfolding(crate::specs::Numbers::pointed_by))]
pub fn pointed(s: &[u8], unit: Unit) -> Option<u32>
    ensures { result ≡ pointed_by unit.zeros s.now }
{
    match split_once(s, b'.') {
        Some((whole, places)) => with_places(unit, whole, places),
        None => times_ten(unit.zeros, read_some(0, s)?),
    }
}
