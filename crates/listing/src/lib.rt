// A plan's entries as words, nine for each: the list itself, and what a walk over it shows. docs/CODES.md, Entries as words.
#![tactic(auto)]

ghost use Rattle.std.specs.Prelude.{◌≡◌, ◌≤◌, length};
ghost use Rattle.rules.specs.Document01.Entries.{entries_of};
ghost use Rattle.rules.specs.Document01.Walk.{stepped_of, fresh_of, shown_of};
ghost use Rattle.rules.specs.Words.{listed, shown_count, ran};
ghost use Rattle.listing.specs.Showing.{far};
ghost use Rattle.listing.specs.Walked.{end_of, last_read};

use shows::Show;
use types::{Plan, Refusal, Shown};

mod shows;

// The whole list, as far as there is room: no values are read, so each entry is shown once, and they are counted.
pub fn store_list(x: &Result<Plan, Refusal>, list: &mut [u32])
    ensures { list.new ≡ listed (entries_of x.now) list.old }
{
    let room = list.len();
    if room == 0 {
        return;
    }
    let mut show = Show {
        reads: &[],
        at: 0,
        down: false,
    };
    entries::tell(x, &mut show, &mut list[1..]);
    list[0] = show.at as u32;
}

// What a walk shows at its end: by the answer, and whether the check has ended the list.
fn last_shown(x: &Result<Plan, Refusal>, down: bool) -> Shown
    ensures { result ≡ shown_of (end_of x.now down) }
{
    match x {
        Err(r) => Shown::Stopped(*r),
        Ok(_) if down => Shown::Stopped(Refusal::CsiDown),
        Ok(_) => Shown::Finished,
    }
}

// Two values for each step but the last.
fn last_read(n: usize) -> usize
    requires { n ≤ far }
    ensures { result ≡ last_read n }
{
    if n == 0 {
        return 0;
    }
    2 * (n - 1)
}

// A whole walk over values that were read, two for each step: what was shown before any step and after each, as nine words each. The answer
// counts them.
pub fn show_walk(x: &Result<Plan, Refusal>, reads: &[u32], shown: &mut [u32]) -> usize
    ensures count { result ≡ shown_count (length reads.now) (length shown.old) }
    ensures shown { shown.new ≡ ran stepped_of (fresh_of x.now) reads.now shown.old result }
{
    let n = words::shown_count(reads.len(), shown.len());
    let m = last_read(n);
    let out = &mut shown[..9 * n];
    let mut show = Show {
        reads: &reads[..m],
        at: 0,
        down: false,
    };
    entries::tell(x, &mut show, out);
    let last = words::shown_words(last_shown(x, show.down));
    words::fill_words(out, show.at, n, &last);
    n
}
