// Entries and what a walk shows as nine words each, and storing them: docs/CODES.md, Entries as words.
#![tactic(auto)]

ghost use Rattle.std.specs.Prelude.{◌≡◌, [], ◌∷◌, ◌+◌, ◌-◌, ◌≤◌, length};
ghost use Rattle.words.specs.Filled.{filled};
ghost use Rattle.rules.specs.Words.{field_word, entry_words, shown_words, stored_at, shown_count};

use types::{Entry, Shown};

pub mod steps;

// A field of the bank, from 1; 0 for none.
pub fn field(f: usize) -> u32
    ensures { result ≡ field_word f }
{
    if f < 82 { f as u32 + 1 } else { 0 }
}

// The kind, then up to four times the field and its value.
pub fn entry_words(e: Entry) -> [u32; 9]
    ensures { result ≡ entry_words e }
{
    match e {
        Entry::Set(f, v) => [1, field(f), v, 0, 0, 0, 0, 0, 0],
        Entry::Set2(f, v, g, w) => [1, field(f), v, field(g), w, 0, 0, 0, 0],
        Entry::Set3(f, v, g, w, h, x) => [1, field(f), v, field(g), w, field(h), x, 0, 0],
        Entry::Set4(f, v, g, w, h, x, k, y) => [
            1,
            field(f),
            v,
            field(g),
            w,
            field(h),
            x,
            field(k),
            y,
        ],
        Entry::Wait(f, v) => [2, field(f), v, 0, 0, 0, 0, 0, 0],
        Entry::Wait2(f, v, g, w) => [2, field(f), v, field(g), w, 0, 0, 0, 0],
        Entry::Check(f, v) => [3, field(f), v, 0, 0, 0, 0, 0, 0],
        Entry::Read(f) => [4, field(f), 0, 0, 0, 0, 0, 0, 0],
    }
}

// An entry; nine 0 for finished; 5 and the number for a refusal.
pub fn shown_words(s: Shown) -> [u32; 9]
    ensures { result ≡ shown_words s }
{
    match s {
        Shown::Next(e) => entry_words(e),
        Shown::Finished => [0; 9],
        Shown::Stopped(n) => [5, refusal::number_of(n), 0, 0, 0, 0, 0, 0, 0],
    }
}

// Nine words from a place on, which has room for them. Not by `copy_from_slice`: a copy of a length that is no constant is compiled to a form that
// scripts/firmware does not take to a 32-bit target; and not by a loop, which stays one where code is compiled for size.
#[inline(always)]
fn put_words(out: &mut [u32], at: usize, words: &[u32; 9])
    requires { at + 9 ≤ length out.old }
    ensures { out.new ≡ stored_at out.old at words.now }
{
    out[at] = words[0];
    out[at + 1] = words[1];
    out[at + 2] = words[2];
    out[at + 3] = words[3];
    out[at + 4] = words[4];
    out[at + 5] = words[5];
    out[at + 6] = words[6];
    out[at + 7] = words[7];
    out[at + 8] = words[8];
}

// Nine words from a place on, where they fit.
#[tactic(auto, using(crate::proofs::Stored::no_room))]
#[inline(always)]
pub fn store_words(out: &mut [u32], at: usize, words: &[u32; 9])
    ensures { out.new ≡ stored_at out.old at words.now }
{
    let n = out.len();
    if 9 <= n && at <= n - 9 {
        put_words(out, at, words);
    }
}

// The same nine words for each thing from i to n, as far as there is room. How many fit is known before the first is stored.
#[tactic(auto, using(rules::proofs::Document01::Run::stored_length, crate::proofs::Filled::fills_on, crate::proofs::Filled::filled_short))]
pub fn fill_words(out: &mut [u32], i: usize, n: usize, words: &[u32; 9])
    ensures { out.new ≡ filled (n - i) i words.now out.old }
{
    let m = n.min(out.len() / 9);
    for k in i..m {
        put_words(out, 9 * k, words);
    }
}

// How many things shown are stored: two values are read for each step, and nine words hold one.
pub fn shown_count(reads: usize, room: usize) -> usize
    ensures { result ≡ shown_count reads room }
{
    let steps = reads / 2 + 1;
    let held = room / 9;
    held.min(steps)
}
