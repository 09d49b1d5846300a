// A simulated chip: a flag comes up at the third read of it, a value that is asked for stands there at once.
use types::Entry;

#[derive(Clone, Copy)]
pub struct Reads {
    pub a: u32,
    pub b: u32,
}

// What the chip shows for an entry that was shown so many times before.
pub fn read(e: Entry, times: u32) -> Reads {
    match e {
        Entry::Wait(_, v) => up(v, 0, times),
        Entry::Wait2(_, v, _, w) => up(v, w, times),
        Entry::Check(_, v) => Reads { a: v, b: 0 },
        _ => Reads { a: 0, b: 0 },
    }
}

fn up(v: u32, w: u32, times: u32) -> Reads {
    if times < 2 {
        return Reads { a: v ^ 1, b: 0 };
    }
    Reads { a: v, b: w }
}
