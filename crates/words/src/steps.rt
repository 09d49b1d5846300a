// Walks: what each shows, where the values read lead it, in place and in one call.
ghost use Rattle.std.specs.Prelude.{◌≡◌, ℕ, length};
ghost use Rattle.rules.specs.Document01.Walk.{Stand, shown_of};
ghost use Rattle.rules.specs.Words.{shown_count, ran};

use types::Shown;

pub trait Steps: Copy {
    // Where a walk stands by document 01, how a step leads on from there, and what a step makes of the record.
    ghost stand: { Self → Stand };

    ghost rule: { Self → Stand → (a b : ℕ) → Stand };

    ghost after: { Self → (a b : ℕ) → Self };

    // What it shows: the next entry, finished, or the refusal.
    fn shows(self) -> Shown
        ensures { result ≡ shown_of (stand self) };

    // The walk after the values read at the entry that it shows: by value.
    fn stepped(self, a: u32, b: u32) -> Self
        ensures walk { result ≡ after self a b }
        ensures rules { stand result ≡ rule self (stand self) a b }
        ensures kept { rule result ≡ rule self };

    // The same in place, with what the walk then shows.
    fn step(&mut self, a: u32, b: u32) -> Shown
        ensures walk { self.new ≡ after self.old a b }
        ensures rules { stand self.new ≡ rule self.old (stand self.old) a b }
        ensures shown { result ≡ shown_of (stand (after self.old a b)) }
    {
        let n = self.stepped(a, b);
        *self = n;
        n.shows()
    }

    // A whole walk over values that were read, two for each step: what was shown before any step and after each, as nine words each. The answer
    // counts them.
    fn run(self, reads: &[u32], shown: &mut [u32]) -> usize
        ensures count { result ≡ shown_count (length reads.now) (length shown.old) }
        ensures shown { shown.new ≡ ran (rule self) (stand self) reads.now shown.old result }
    {
        let n = crate::shown_count(reads.len(), shown.len());
        let mut w = self;
        for i in 0..n {
            crate::store_words(shown, 9 * i, &crate::shown_words(w.shows()));
            let k = 2 * i;
            w = w.stepped(fields::word(reads, k), fields::word(reads, k + 1));
        }
        n
    }
}
