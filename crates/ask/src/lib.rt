// A request and a chip in words, as docs/CODES.md has them, and the bytes that they stand for.
#![tactic(auto)]

ghost use Rattle.std.specs.Prelude.{◌≡◌, ◌+◌, ◌<◌, ◌^◌, length};
ghost use Rattle.ask.specs.Sheet.{wrong_of, sheet_with, width_of, without_key};
ghost use Rattle.ask.specs.All.{at_word, part_wrong, with_part, taken_by, sheet_by};

pub use table::KEYS;

mod hex;
mod table;
mod value;

// The kinds of value that keys take: hertz, none, a source of MCO1 or MCO2, a strategy, a PLL count, a number below 256, what is shown, and
// hexadecimal digits.
#[derive(Clone, Copy)]
pub enum Kind {
    Hertz,
    Nothing,
    Mco1,
    Mco2,
    Strategy,
    Count,
    Small,
    Shown,
    Digits,
}

// What a key takes, and where its bytes stand on a sheet.
#[derive(Clone, Copy)]
pub struct Key {
    pub kind: Kind,
    pub place: usize,
}

// What is wrong with a word: its value, by the kind that would be right, or its key.
#[derive(Clone, Copy)]
pub enum Wrong {
    Value(Kind),
    NoSuchKey,
}

// Bytes for a place of a sheet: the first `count` of them.
#[derive(Clone, Copy)]
pub struct Said {
    pub place: usize,
    pub count: usize,
    pub bytes: [u8; 6],
}

// A wrong word: what is wrong with it, and where it stands in a text.
#[derive(Clone, Copy)]
pub struct WrongWord {
    pub wrong: Wrong,
    pub from: usize,
    pub to: usize,
}

// Puts a word on a sheet; a wrong one changes nothing.
#[tactic(auto, unfolding(crate::specs::Sheet::wrong_of, crate::specs::Sheet::sheet_with, crate::specs::Words::said_by))]
pub fn take(sheet: &mut [u8], word: &[u8]) -> Result<(), Wrong>
    ensures wrong { result ≡ wrong_of sheet.old word.now }
    ensures sheet { sheet.new ≡ sheet_with sheet.old word.now }
{
    let (name, value) = text::around(word, b'=');
    let key = table::key(table::key_number(name).ok_or(Wrong::NoSuchKey)?);
    match value {
        Some(digits) if matches!(key.kind, Kind::Digits) => hex::take_bytes(sheet, digits),
        _ => {
            let q = value::key_said(key, value)?;
            text::store(sheet, q.place, &q.bytes[..q.count]);
            Ok(())
        }
    }
}

// Puts what stands between two blanks of a text on a sheet: a word from a place on, or nothing.
#[tactic(auto, unfolding(crate::specs::All::part_wrong, crate::specs::All::with_part))]
fn take_part(sheet: &mut [u8], part: &[u8], from: usize) -> Result<(), WrongWord>
    requires { from + length part.now < 2 ^ 64 }
    ensures wrong { result ≡ at_word from (from + length part.now) (part_wrong sheet.old part.now) }
    ensures sheet { sheet.new ≡ with_part sheet.old part.now }
{
    if part.is_empty() {
        return Ok(());
    }
    let to = from + part.len();
    take(sheet, part).map_err(|wrong| WrongWord { wrong, from, to })
}

// Puts all words of a text on a sheet, up to the first wrong one. A blank, and each byte below it, parts words.
pub fn take_all(sheet: &mut [u8], words: &[u8]) -> Result<(), WrongWord>
    ensures taken { result ≡ taken_by sheet.old words.now }
    ensures sheet { sheet.new ≡ sheet_by sheet.old words.now }
{
    let mut from = 0;
    for part in words.split(|b| *b <= b' ') {
        take_part(sheet, part, from)?;
        from += part.len() + 1;
    }
    Ok(())
}

// How many bytes a key has on a sheet, by the kind of its value.
fn width_of(kind: Kind) -> usize
    ensures { result ≡ width_of kind }
{
    match kind {
        Kind::Hertz => 5,
        Kind::Mco1 | Kind::Mco2 => 6,
        _ => 1,
    }
}

// A sheet without key k: its bytes are a fresh sheet's.
#[tactic(auto, using(crate::proofs::Keys::ends_within, crate::proofs::Keys::fresh_length), unfolding(crate::specs::Sheet::without_key))]
pub fn without(sheet: &mut [u8], k: usize)
    ensures { sheet.new ≡ without_key sheet.old k }
{
    let key = table::key(k);
    let blank = sheet::fresh();
    let to = key.place + width_of(key.kind);
    text::store(sheet, key.place, &blank[key.place..to]);
}
