// What else is shown: the entries in order, the bank, or the bytes of the request.
ghost use Rattle.std.specs.Prelude.{◌+◌, min};

use entries::sink::Sink;
use types::{Entry, Plan, Refusal};

fn entry(i: u32, e: Entry) {
    let words = words::entry_words(e);
    let numbers = lines::entry_line(i, &words);
    print::line(
        b"{3:0}  {1|}{2#} {3}{4?}, {4#} {5}{.}{6?}, {6#} {7}{.}{8?}, {8#} {9}{.}\n",
        &print::FIELDS,
        &numbers,
    );
}

// A sink that prints each entry in order, behind how many stand before it.
#[derive(Clone, Copy)]
pub struct Lines {
    pub before: u32,
}

impl Sink for Lines {
    ghost after = { λ e s. (record { before = min (s.0.before + 1) 4_294_967_295 }, s.1) };

    fn take(&mut self, e: Entry, _room: &mut [u32]) {
        entry(self.before, e);
        self.before = self.before.saturating_add(1);
    }
}

// Three words a row.
fn all_words(bank: &[u32; 82]) {
    for f in 0..82 {
        let numbers = lines::word_line(bank, f);
        print::line(
            b"{2:0} {1|}{9:2}{3?}\n{.}{3!}  {.}",
            &print::FIELDS,
            &numbers,
        );
    }
    print::say(b"\n");
}

const HEX: [&[u8]; 16] = [
    b"0", b"1", b"2", b"3", b"4", b"5", b"6", b"7", b"8", b"9", b"a", b"b", b"c", b"d", b"e", b"f",
];

// Thirty bytes a row, each row a word of a request.
fn bytes(request: &[u8]) {
    for numbers in (0..request.len()).map(|i| lines::byte_line(request, i)) {
        print::line(b"{0?}bytes={.}{1#}{2#}{3?}\n{.}", &HEX, &numbers);
    }
}

// By the sheet's byte behind the chip.
pub fn show(x: &Result<Plan, Refusal>, bank: &[u32; 82], sheet: &[u8]) {
    match sheet.get(sheet::SHOWN) {
        Some(1) => entries::tell(x, &mut Lines { before: 0 }, &mut []),
        Some(2) => all_words(bank),
        Some(3) => bytes(sheet::request(sheet)),
        _ => (),
    }
}
