// What a word says: bytes for a place of a sheet, or what is wrong with it.
ghost use Rattle.std.specs.Prelude.{◌≡◌, ◌+◌, ◌≤◌, ◌<◌, IfSome, IfOk, option_copied, length};
ghost use Rattle.text.specs.Names.{texts_of};
ghost use Rattle.ask.specs.Words as Spec;

use crate::{Key, Kind, Said, Wrong};

// One byte, by its number.
fn one_byte(key: Key, first: u8, number: Option<usize>) -> Result<Said, Wrong>
    requires { IfSome number (λ n. first + n < 256) }
    ensures said { result ≡ Spec.one_byte key first number }
    ensures few { IfOk result (λ q. q.count ≤ 6) }
{
    let n = number.ok_or(Wrong::Value(key.kind))?;
    Ok(Said {
        place: key.place,
        count: 1,
        bytes: [first + n as u8, 0, 0, 0, 0, 0],
    })
}

fn hertz_said(key: Key, hertz: Option<u32>) -> Result<Said, Wrong>
    ensures said { result ≡ Spec.hertz_said key hertz }
    ensures few { IfOk result (λ q. q.count ≤ 6) }
{
    let [a, b, c, d] = hertz.ok_or(Wrong::Value(key.kind))?.to_le_bytes();
    Ok(Said {
        place: key.place,
        count: 5,
        bytes: [1, a, b, c, d, 0],
    })
}

fn mco_hertz(key: Key, code: u8, hertz: Option<u32>) -> Result<Said, Wrong>
    ensures said { result ≡ Spec.mco_hertz key code hertz }
    ensures few { IfOk result (λ q. q.count ≤ 6) }
{
    let [a, b, c, d] = hertz.ok_or(Wrong::Value(key.kind))?.to_le_bytes();
    Ok(Said {
        place: key.place,
        count: 6,
        bytes: [code, 1, a, b, c, d],
    })
}

// A source by its name, and hertz behind a colon or none.
#[tactic(auto, unfolding(crate::specs::Words::mco_said))]
fn mco_said(key: Key, names: &[&[u8]], value: &[u8]) -> Result<Said, Wrong>
    requires { length names.now ≤ 256 }
    ensures said { result ≡ Spec.mco_said key (texts_of names.now) value.now }
    ensures few { IfOk result (λ q. q.count ≤ 6) }
{
    let (name, hertz) = text::around(value, b':');
    let code = text::name_number(names, name).ok_or(Wrong::Value(key.kind))? as u8;
    match hertz {
        Some(h) => mco_hertz(key, code, text::hertz(h)),
        None => Ok(Said {
            place: key.place,
            count: 6,
            bytes: [code, 0, 0, 0, 0, 0],
        }),
    }
}

// A number below 256.
fn small(value: &[u8]) -> Option<usize>
    ensures number { result ≡ Spec.small value.now }
    ensures inside { IfSome result (λ n. n < 256) }
{
    u8::try_from(text::whole(value)?).ok().map(usize::from)
}

// A value of each kind.
#[tactic(auto, unfolding(crate::specs::Words::value_said, crate::specs::Table::mco1_names, crate::specs::Table::mco2_names, crate::specs::Table::strategy_names, crate::specs::Table::count_names, crate::specs::Table::show_names))]
fn value_said(key: Key, value: &[u8]) -> Result<Said, Wrong>
    ensures said { result ≡ Spec.value_said key value.now }
    ensures few { IfOk result (λ q. q.count ≤ 6) }
{
    match key.kind {
        Kind::Hertz => hertz_said(key, text::hertz(value)),
        Kind::Mco1 => mco_said(key, &[b"hsi", b"lse", b"hse", b"pll1q", b"hsi48"], value),
        Kind::Mco2 => mco_said(
            key,
            &[b"sysclk", b"pll2p", b"hse", b"pll1p", b"csi", b"lsi"],
            value,
        ),
        Kind::Strategy => one_byte(
            key,
            0,
            text::name_number(&[b"integer", b"fractional"], value),
        ),
        Kind::Count => one_byte(key, 2, text::name_number(&[b"two", b"three"], value)),
        Kind::Small => one_byte(key, 0, small(value)),
        Kind::Shown => one_byte(
            key,
            0,
            text::name_number(&[b"plan", b"entries", b"bank", b"bytes"], value),
        ),
        Kind::Nothing | Kind::Digits => Err(Wrong::Value(key.kind)),
    }
}

// A key without a value.
#[tactic(auto, unfolding(crate::specs::Words::bare_said))]
fn bare_said(key: Key) -> Result<Said, Wrong>
    ensures said { result ≡ Spec.bare_said key }
    ensures few { IfOk result (λ q. q.count ≤ 6) }
{
    match key.kind {
        Kind::Nothing => Ok(Said {
            place: key.place,
            count: 1,
            bytes: [1, 0, 0, 0, 0, 0],
        }),
        _ => Err(Wrong::Value(key.kind)),
    }
}

// A key, and the value that stands behind its =.
pub fn key_said(key: Key, value: Option<&[u8]>) -> Result<Said, Wrong>
    ensures said { result ≡ Spec.key_said key (option_copied value.entry) }
    ensures few { IfOk result (λ q. q.count ≤ 6) }
{
    match value {
        Some(v) => value_said(key, v),
        None => bare_said(key),
    }
}
