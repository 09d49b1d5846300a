// What takes the entries of a list, one after the other, with a room of words lent to it.
ghost use Rattle.std.specs.Prelude.{◌≡◌, ℕ, List, true, false};
ghost use Rattle.types.specs.declared.Entry.{Entry};
ghost use Rattle.types.specs.declared.Entry.TheVariants.{Check, Set, Set2, Set3, Set4, Wait, Wait2};
ghost use Rattle.entries.specs.Sink.{Passes};

use types::Entry;

// Each entry can be taken by its kind: where that is quicker than by `take`, a sink has its own.
pub trait Sink {
    // What becomes of the sink and its room by an entry.
    ghost after: { Entry → Self × List ℕ → Self × List ℕ };

    // Whether the next n entries need not be told, whichever they are: the sink is then as after them, and its room is as it was.
    fn passes(&mut self, _n: usize) -> bool
        ensures passed { result ≡ true → Passes after _n self.old self.new }
        ensures kept { result ≡ false → self.new ≡ self.old }
    {
        false
    }

    fn take(&mut self, e: Entry, room: &mut [u32])
        ensures { (self.new, room.new) ≡ after e (self.old, room.old) };

    fn set(&mut self, f: usize, v: u32, room: &mut [u32])
        ensures { (self.new, room.new) ≡ after (Set f v) (self.old, room.old) }
    {
        self.take(Entry::Set(f, v), room)
    }

    fn set2(&mut self, f: usize, v: u32, g: usize, w: u32, room: &mut [u32])
        ensures { (self.new, room.new) ≡ after (Set2 f v g w) (self.old, room.old) }
    {
        self.take(Entry::Set2(f, v, g, w), room)
    }

    fn set3(&mut self, f: usize, v: u32, g: usize, w: u32, h: usize, x: u32, room: &mut [u32])
        ensures { (self.new, room.new) ≡ after (Set3 f v g w h x) (self.old, room.old) }
    {
        self.take(Entry::Set3(f, v, g, w, h, x), room)
    }

    fn set4(
        &mut self,
        f: usize,
        v: u32,
        g: usize,
        w: u32,
        h: usize,
        x: u32,
        k: usize,
        y: u32,
        room: &mut [u32],
    )
        ensures { (self.new, room.new) ≡ after (Set4 f v g w h x k y) (self.old, room.old) }
    {
        self.take(Entry::Set4(f, v, g, w, h, x, k, y), room)
    }

    fn wait(&mut self, f: usize, v: u32, room: &mut [u32])
        ensures { (self.new, room.new) ≡ after (Wait f v) (self.old, room.old) }
    {
        self.take(Entry::Wait(f, v), room)
    }

    fn wait2(&mut self, f: usize, v: u32, g: usize, w: u32, room: &mut [u32])
        ensures { (self.new, room.new) ≡ after (Wait2 f v g w) (self.old, room.old) }
    {
        self.take(Entry::Wait2(f, v, g, w), room)
    }

    fn check(&mut self, f: usize, v: u32, room: &mut [u32])
        ensures { (self.new, room.new) ≡ after (Check f v) (self.old, room.old) }
    {
        self.take(Entry::Check(f, v), room)
    }
}
