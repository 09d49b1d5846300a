// The word that a refusal is about: the first, in an order of its own, without which the request is not refused with the same number; where no
// single one is, the last of those that have to be taken away together.
#![tactic(auto)]

ghost use Rattle.std.specs.Prelude.{◌≡◌, ℕ, List};
ghost use Rattle.ask.specs.Sheet.{without_key};
ghost use Rattle.blame.specs.Blame.{start_for, refusal_on, Gives, first_freed, blamed_of, last_blamed_of};

use types::Refusal;

// The order in which keys are tried, by their numbers. docs/CODES.md, A request in words.
const ORDER: [usize; 33] = [
    0, 13, 14, 15, 17, 18, 19, 21, 22, 23, 12, 16, 20, 10, 11, 5, 6, 7, 8, 3, 4, 0, 9, 1, 2, 25,
    26, 27, 28, 29, 30, 24, 32,
];

// The refusal that a sheet gets; none for a plan.
#[tactic(auto, unfolding(crate::specs::Blame::refusal_on))]
fn refusal_on(sheet: &[u8]) -> Option<Refusal>
    ensures { result ≡ refusal_on sheet.now }
{
    rcc::plan(sheet::request(sheet), sheet::chip(sheet)).err()
}

// A sheet without key k.
fn without(mut sheet: [u8; 115], k: usize) -> [u8; 115]
    ensures { result ≡ without_key sheet k }
{
    ask::without(&mut sheet, k);
    sheet
}

// Where in the order to start: with HSE for a refusal that the board causes.
fn start_for(refused: Option<Refusal>) -> usize
    ensures { result ≡ start_for refused }
{
    match refused {
        Some(Refusal::SourceZero | Refusal::NoM | Refusal::AhbZero) => 0,
        _ => 1,
    }
}

// The first key with which the next sheet that is tried is answered otherwise.
#[tactic(auto, unfolding(crate::specs::Blame::order))]
fn first_freed<F: Fn([u8; 115], usize) -> [u8; 115]>(sheet: [u8; 115], next: F) -> Option<usize>
    requires { F.IsAlwaysCallable next }
    ensures { (f : List ℕ → ℕ → List ℕ) → Gives (F.post next) f → result ≡ first_freed f sheet }
{
    let refused = refusal_on(&sheet);
    let mut tried = sheet;
    for k in &ORDER[start_for(refused)..] {
        let less = next(tried, *k);
        if refusal_on(&less) != refused {
            return Some(*k);
        }
        tried = less;
    }
    None
}

// The number of the key without which the sheet is answered otherwise. What the closure gives is stated, since what is inferred of it leaves its
// result open.
#[tactic(auto, unfolding(crate::specs::Blame::blamed_of))]
pub fn blamed(sheet: [u8; 115]) -> Option<usize>
    ensures { result ≡ blamed_of sheet }
{
    first_freed(
        sheet,
        |_, k| -> [u8; 115]
            ensures { result ≡ without_key sheet k }
        { without(sheet, k) },
    )
}

// The number of the last key of those without which, taken away one after the other, the sheet is answered otherwise.
#[tactic(auto, unfolding(crate::specs::Blame::last_blamed_of))]
pub fn last_blamed(sheet: [u8; 115]) -> Option<usize>
    ensures { result ≡ last_blamed_of sheet }
{
    first_freed(sheet, without)
}
