// Texts with places for numbers: docs/CODES.md, Templates.
#![tactic(auto)]

ghost use Rattle.std.specs.Prelude.{◌≡◌, ◌<◌, min, length, get_or};
ghost use Rattle.std.proofs.lemmas.List.Edits.{sets};
ghost use Rattle.text.specs.Names.{texts_of};
ghost use Rattle.room.specs.Write.{Wrote};
ghost use Rattle.template.specs.Template.{at_stage, shown_by, in_braces, next, command_writes, writes, filled};

use room::Room;
use write::{column, decimal, name};

mod write;

// Where a template is read: in its text, between braces, or between braces with nothing to come.
#[derive(Clone, Copy)]
pub enum Stage {
    Text,
    Braces,
    Done,
}

// What is known where the reading of a template stands.
#[derive(Clone, Copy)]
pub struct State {
    pub stage: Stage,
    pub shown: bool,
    pub width: usize,
    pub number: usize,
}

// Whether what follows is written, by the command and its number.
fn shown_by(n: u64, shown: bool, b: u8) -> bool
    ensures { result ≡ shown_by n shown b }
{
    match b {
        b'?' => 0 < n,
        b'!' => n == 0,
        b'.' => true,
        _ => shown,
    }
}

fn at_stage(stage: Stage, shown: bool) -> State
    ensures { result ≡ at_stage stage shown }
{
    State {
        stage,
        shown,
        width: 0,
        number: 0,
    }
}

// Between braces: a digit of a number, the colon behind a width, or a command.
#[tactic(auto, unfolding(crate::specs::Template::in_braces))]
fn in_braces(n: u64, s: State, b: u8) -> State
    requires { s.number < 1000 }
    ensures { result ≡ in_braces n s b }
{
    match b {
        b'0'..=b'9' => State {
            stage: Stage::Braces,
            number: (10 * s.number + usize::from(b - b'0')) % 1000,
            ..s
        },
        b':' => State {
            stage: Stage::Braces,
            width: s.number,
            number: 0,
            ..s
        },
        _ => at_stage(Stage::Done, shown_by(n, s.shown, b)),
    }
}

// The state behind a byte. One that stays is made of its fields: a copy of the whole takes the bytes between them along.
#[tactic(auto, unfolding(crate::specs::Template::next))]
fn next_state(n: u64, s: State, b: u8) -> State
    requires { s.number < 1000 }
    ensures { result ≡ next n s b }
{
    match (s.stage, b) {
        (Stage::Text, b'{') => at_stage(Stage::Braces, s.shown),
        (Stage::Braces | Stage::Done, b'}') => at_stage(Stage::Text, s.shown),
        (Stage::Braces, _) => in_braces(n, s, b),
        _ => State { ..s },
    }
}

// What a command writes.
#[tactic(auto, unfolding(crate::specs::Template::command_writes))]
fn command(names: &[&[u8]], n: u64, width: usize, b: u8, out: &mut Room<u8>)
    ensures { Wrote out.old out.new (command_writes (texts_of names.now) n width b) }
{
    match b {
        b'}' => decimal(out, width, n),
        b'#' => name(out, names, n),
        b'|' => column(out, names, n),
        _ => (),
    }
}

// What a byte writes.
#[tactic(auto, unfolding(crate::specs::Template::writes))]
fn act(names: &[&[u8]], n: u64, s: State, b: u8, out: &mut Room<u8>)
    ensures { Wrote out.old out.new (writes (texts_of names.now) n s b) }
{
    if !s.shown {
        return;
    }
    match s.stage {
        Stage::Text => if b != b'{' {
            out.put(b);
        },
        Stage::Braces => command(names, n, s.width, b, out),
        Stage::Done => (),
    }
}

// The number at a place; 0 past the last.
fn number_at(numbers: &[u64], k: usize) -> u64
    ensures { result ≡ get_or numbers.now k 0 }
{
    numbers.get(k).copied().unwrap_or(0)
}

// Writes what a template comes to.
fn write_all(template: &[u8], names: &[&[u8]], numbers: &[u64], out: &mut Room<u8>)
    ensures { Wrote out.old out.new (filled template.now (texts_of names.now) numbers.now) }
{
    let mut s = at_stage(Stage::Text, true);
    for b in template {
        let n = number_at(numbers, s.number);
        act(names, n, s, *b, out);
        s = next_state(n, s, *b);
    }
}

// Writes what a template comes to at the start of out, as far as there is room, and answers how many bytes that is.
pub fn fill(template: &[u8], names: &[&[u8]], numbers: &[u64], out: &mut [u8]) -> usize
    ensures text { out.new ≡ sets out.old 0 (filled template.now (texts_of names.now) numbers.now) }
    ensures count { result ≡ min (length (filled template.now (texts_of names.now) numbers.now)) (length out.old) }
{
    let mut page = Room { items: out, at: 0 };
    write_all(template, names, numbers, &mut page);
    page.at
}
