// A sink that keeps one entry: the one with so many before it.
ghost use Rattle.entries.specs.Pick.{picked};

use crate::sink::Sink;
use types::Entry;

#[derive(Clone, Copy)]
pub struct Pick {
    pub before: usize,
    pub found: Option<Entry>,
}

impl Sink for Pick {
    ghost after = { picked };

    fn passes(&mut self, n: usize) -> bool {
        if self.found.is_some() {
            return true;
        }
        if self.before < n {
            return false;
        }
        self.before -= n;
        true
    }

    fn take(&mut self, e: Entry, _room: &mut [u32]) {
        if self.found.is_some() {
            return;
        }
        if self.before == 0 {
            self.found = Some(e);
        } else {
            self.before -= 1;
        }
    }
}
