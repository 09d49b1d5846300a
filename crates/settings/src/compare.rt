// The table's lines, each planned on both chips, and each number stated beside those found.
ghost use Rattle.std.specs.Prelude.{◌<◌, IfSome};

use crate::found;
use print::say;

// How many numbers and settings are compared, and how many numbers differ; the letter of the last setting.
#[derive(Clone, Copy)]
pub struct Tally<'a> {
    pub numbers: u64,
    pub settings: u64,
    pub differ: u64,
    pub letter: &'a str,
}

impl<'a> Tally<'a> {
    // One more number, which differs or not.
    fn number(&mut self, differs: bool) {
        self.numbers = self.numbers.wrapping_add(1);
        self.differ = self.differ.wrapping_add(u64::from(differs));
    }

    // A line of this letter: another than the last begins a setting.
    fn begin(&mut self, letter: &'a str) {
        if letter != self.letter {
            self.settings = self.settings.wrapping_add(1);
            self.letter = letter;
        }
    }

    // What cannot be compared shows as it is, and counts as a number that differs.
    fn wrong(&mut self, text: &str) {
        say(text.as_bytes());
        say(b"  differs\n");
        self.number(true);
    }

    // A number as it is stated, with two PLLs and with three.
    fn row(&mut self, k: usize, stated: u32, two: u32, three: u32) {
        let differs = two != stated || three != stated;
        found::line(
            b"{0|}{12:1}{14:2}{14:3}{4?}  differs{.}\n",
            &[
                k as u64,
                u64::from(stated),
                u64::from(two),
                u64::from(three),
                u64::from(differs),
            ],
        );
        self.number(differs);
    }

    // The numbers that are stated of a request.
    fn numbers(&mut self, words: &str, two: &[u32; 19], three: &[u32; 19]) {
        for word in words.split(' ') {
            match stated(word) {
                Some((k, n)) => self.row(k, n, two[k], three[k]),
                None => self.wrong(word),
            }
        }
    }

    // A line: a letter and a blank, the words of a request, a colon between blanks, what is stated.
    fn setting(&mut self, line: &'a str) {
        let (head, words) = line.split_once(" : ").unwrap_or((line, ""));
        say(head.as_bytes());
        say(b"\n");
        let (letter, request) = head.split_once(' ').unwrap_or((head, ""));
        self.begin(letter);
        if request.is_empty() {
            self.wrong("nothing is requested");
            return;
        }
        if words.is_empty() {
            self.wrong("nothing is stated");
            return;
        }
        let two = found::on(b"chip=two odd1=1 odd2=1 odd3=1", request.as_bytes());
        let three = found::on(b"chip=three odd1=1 odd2=1 odd3=1", request.as_bytes());
        match (two, three) {
            (Ok(two), Ok(three)) => self.numbers(words, &two, &three),
            _ => self.wrong("a word of the request is wrong"),
        }
    }
}

// What a word states: the number of a name, and behind = a number.
fn stated(word: &str) -> Option<(usize, u32)>
    ensures { IfSome result (λ p. p.0 < 19) }
{
    let (name, number) = word.split_once('=')?;
    let k = found::name_number(name.as_bytes())?;
    Some((k, text::whole(number.as_bytes())?))
}

// The lines of the table.
pub fn each(table: &str) -> Tally<'_> {
    let mut t = Tally {
        numbers: 0,
        settings: 0,
        differ: 0,
        letter: "",
    };
    for line in table.lines() {
        t.setting(line);
    }
    t
}
