// The words of the command line: arguments one after the other, and for @FILE what the file has.
ghost use Rattle.std.specs.Prelude.{◌≤◌, length, IfSome};

use std::env::FillError;
use std::fs::File;
use std::io::Read;
use std::rt::{Env, Files};

// The words so far: `count` bytes of a room.
#[derive(Drop)]
pub struct Words {
    pub room: [u8; 4096],
    pub count: usize,
}

impl Words {
    // Puts s behind the words so far, and a blank behind it, as far as there is room.
    fn append(&mut self, s: &[u8]) {
        text::store(&mut self.room, self.count, s);
        let end = self.count.saturating_add(s.len());
        text::store(&mut self.room, end, b" ");
        self.count = end.saturating_add(1).min(self.room.len());
    }

    // An argument, or for @FILE what the file has; one that cannot be read stands as a wrong word.
    fn append_argument(&mut self, rt: &impl Files, word: &[u8]) {
        if let Some(path) = word.strip_prefix(b"@") {
            let mut room = io::buffer();
            if let Some(n) = read_file(rt, path, &mut room) {
                self.append(&room[..n]);
                return;
            }
        }
        self.append(word);
    }
}

// Reads until there is no more room, the file ends or a read fails; how many bytes were read. std's read_exact does not say how many.
fn read_full(file: &mut impl Read, room: &mut [u8]) -> usize
    ensures { result ≤ length room.new }
{
    let mut done = 0;
    while done < room.len() {
        let n = file.read(&mut room[done..]).unwrap_or(0);
        if n == 0 {
            break;
        }
        done += n;
    }
    done
}

// What a file has, as far as there is room; how many bytes.
fn read_file(rt: &impl Files, path: &[u8], room: &mut [u8]) -> Option<usize>
    ensures { IfSome result (λ n. n ≤ length room.new) }
{
    let path = std::str::from_utf8(path).ok()?;
    let mut file = File::open(rt, path).ok()?;
    Some(read_full(&mut file, room))
}

// All arguments. One of more than 4096 bytes counts as an empty one.
pub fn gather(rt: &(impl Env + Files)) -> Words {
    let mut words = Words {
        room: io::buffer(),
        count: 0,
    };
    for i in 1..usize::MAX {
        let mut word = io::buffer();
        match rt.arg(i, &mut word) {
            Ok(n) => words.append_argument(rt, &word[..n]),
            Err(FillError::TooLong) => words.append(b""),
            Err(FillError::NotPresent) => break,
        }
    }
    words
}

// The page of a refusal by its number, which a blank stands behind, or the words that there are.
pub fn help(number: &[u8]) {
    match text::whole(number.strip_suffix(b" ").unwrap_or(number)) {
        Some(n) => help::page(n),
        None => help::usage(),
    }
}
