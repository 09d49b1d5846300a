// Entries shown: nine words for each, stored at its place in the room lent. docs/CODES.md, Entries as words.
ghost use Rattle.std.specs.Prelude.{◌≡◌, [], ◌∷◌, ℕ, ◌+◌, ◌*◌, ◌<◌};
ghost use Rattle.rules.specs.Words.{entry_words, stored_at};
ghost use Rattle.listing.specs.Showing.{seen, passed_at, wait_for};
ghost use Rattle.listing.specs.Show.{shown, shown_once};

use entries::sink::Sink;
use types::Entry;
use words::field;

// A sink: how many things are shown, over which values read, and whether the check of CSIRDY has ended the list.
#[derive(Drop)]
pub struct Show<'a> {
    pub reads: &'a [u32],
    pub at: usize,
    pub down: bool,
}

// Nine words at place i, where they have room.
#[tactic(auto, using(crate::proofs::Showing::no_room))]
#[inline(always)]
pub fn nine(words: &[u32; 9], i: usize, room: &mut [u32])
    ensures { room.new ≡ stored_at room.old (9 * i) words.now }
{
    if i < room.len() / 8 {
        words::store_words(room, 9 * i, words);
    }
}

// Whether value k of the two read after thing i is v, or is not there.
#[tactic(auto, unfolding(crate::specs::Showing::seen))]
fn seen(reads: &[u32], i: usize, k: usize, v: u32) -> bool
    requires { k < 2 }
    ensures { result ≡ seen reads.now (2 * i + k) v }
{
    let n = reads.len();
    if i < n {
        let at = 2 * i + k;
        if at < n {
            return reads[at] == v;
        }
    }
    true
}

// The words of a wait for one value, or for two.
fn wait_words(f: usize, v: u32, second: Option<(usize, u32)>) -> [u32; 9]
    ensures { result ≡ entry_words (wait_for f v second) }
{
    match second {
        None => [2, field(f), v, 0, 0, 0, 0, 0, 0],
        Some((g, w)) => [2, field(f), v, field(g), w, 0, 0, 0, 0],
    }
}

// Whether the values read after thing i are those that are waited for.
fn met(v: u32, second: Option<(usize, u32)>, i: usize, reads: &[u32]) -> bool
    ensures { (f : ℕ) → result ≡ passed_at reads.now i (wait_for f v second) }
{
    let first = seen(reads, i, 0, v);
    match second {
        None => first,
        Some((_, w)) => first & seen(reads, i, 1, w),
    }
}

impl<'a> Show<'a> {
    // An entry that is passed whatever is read.
    #[tactic(auto, unfolding(crate::specs::Show::shown_once))]
    #[inline(always)]
    fn once(&mut self, words: &[u32; 9], room: &mut [u32])
        ensures { (self.new, room.new) ≡ shown_once words.now (self.old, room.old) }
    {
        if self.down {
            return;
        }
        nine(words, self.at, room);
        self.at = self.at.wrapping_add(1);
    }

    // A wait for one value, or for two: shown again until what is read lets it pass.
    #[tactic(auto, using(crate::proofs::Told::ends_is))]
    #[inline(always)]
    fn until(&mut self, f: usize, v: u32, second: Option<(usize, u32)>, room: &mut [u32])
        ensures { (self.new, room.new) ≡ shown (wait_for f v second) (self.old, room.old) }
    {
        if self.down {
            return;
        }
        let words = wait_words(f, v, second);
        let mut at = self.at;
        let mut again = true;
        while again {
            nine(&words, at, room);
            again = !met(v, second, at, self.reads);
            at = at.wrapping_add(1);
        }
        self.at = at;
    }
}

impl<'a> Sink for Show<'a> {
    ghost after = { shown };

    #[tactic(auto, using(crate::proofs::Told::read_is))]
    fn take(&mut self, e: Entry, room: &mut [u32]) {
        match e {
            Entry::Set(f, v) => self.set(f, v, room),
            Entry::Set2(f, v, g, w) => self.set2(f, v, g, w, room),
            Entry::Set3(f, v, g, w, h, x) => self.set3(f, v, g, w, h, x, room),
            Entry::Set4(f, v, g, w, h, x, k, y) => self.set4(f, v, g, w, h, x, k, y, room),
            Entry::Wait(f, v) => self.wait(f, v, room),
            Entry::Wait2(f, v, g, w) => self.wait2(f, v, g, w, room),
            Entry::Check(f, v) => self.check(f, v, room),
            Entry::Read(f) => self.once(&[4, field(f), 0, 0, 0, 0, 0, 0, 0], room),
        }
    }

    #[tactic(auto, using(crate::proofs::Told::set_is))]
    fn set(&mut self, f: usize, v: u32, room: &mut [u32]) {
        self.once(&[1, field(f), v, 0, 0, 0, 0, 0, 0], room)
    }

    #[tactic(auto, using(crate::proofs::Told::set2_is))]
    fn set2(&mut self, f: usize, v: u32, g: usize, w: u32, room: &mut [u32]) {
        self.once(&[1, field(f), v, field(g), w, 0, 0, 0, 0], room)
    }

    #[tactic(auto, using(crate::proofs::Told::set3_is))]
    fn set3(&mut self, f: usize, v: u32, g: usize, w: u32, h: usize, x: u32, room: &mut [u32]) {
        self.once(&[1, field(f), v, field(g), w, field(h), x, 0, 0], room)
    }

    #[tactic(auto, using(crate::proofs::Told::set4_is))]
    fn set4(
        &mut self,
        f: usize,
        v: u32,
        g: usize,
        w: u32,
        h: usize,
        x: u32,
        k: usize,
        y: u32,
        room: &mut [u32],
    ) {
        self.once(
            &[1, field(f), v, field(g), w, field(h), x, field(k), y],
            room,
        )
    }

    fn wait(&mut self, f: usize, v: u32, room: &mut [u32]) {
        self.until(f, v, None, room)
    }

    fn wait2(&mut self, f: usize, v: u32, g: usize, w: u32, room: &mut [u32]) {
        self.until(f, v, Some((g, w)), room)
    }

    // One that is not met ends the list.
    #[tactic(auto, using(crate::proofs::Told::check_is, crate::proofs::Told::ends_is))]
    fn check(&mut self, f: usize, v: u32, room: &mut [u32]) {
        if self.down {
            return;
        }
        nine(&[3, field(f), v, 0, 0, 0, 0, 0, 0], self.at, room);
        self.down = !seen(self.reads, self.at, 0, v);
        self.at = self.at.wrapping_add(1);
    }
}
