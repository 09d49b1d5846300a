// An entry in words.
use print::{named, say};
use types::Entry;

pub fn show(e: Entry) {
    match e {
        Entry::Set(f, v) => one(b"set ", f, v),
        Entry::Set2(f, v, g, w) => two(b"set ", f, v, g, w),
        Entry::Set3(f, v, g, w, h, x) => {
            two(b"set ", f, v, g, w);
            one(b", ", h, x)
        }
        Entry::Set4(f, v, g, w, h, x, k, y) => {
            two(b"set ", f, v, g, w);
            two(b", ", h, x, k, y)
        }
        Entry::Wait(f, v) => one(b"wait ", f, v),
        Entry::Wait2(f, v, g, w) => two(b"wait ", f, v, g, w),
        Entry::Check(f, v) => one(b"check ", f, v),
        Entry::Read(f) => {
            say(b"read ");
            field(f)
        }
    }
}

// A field's name, with a blank for its point.
fn field(f: usize) {
    let name = print::FIELDS
        .get(f.saturating_add(1))
        .copied()
        .unwrap_or(b"");
    for b in name {
        say(&[if *b == b'.' { b' ' } else { *b }]);
    }
}

fn one(kind: &[u8], f: usize, v: u32) {
    say(kind);
    field(f);
    named(b" ", v)
}

fn two(kind: &[u8], f: usize, v: u32, g: usize, w: u32) {
    one(kind, f, v);
    one(b", ", g, w)
}
