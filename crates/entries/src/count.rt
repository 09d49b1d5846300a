// A sink that counts entries.
ghost use Rattle.entries.specs.Count.{counted};

use crate::sink::Sink;
use types::Entry;

#[derive(Clone, Copy)]
pub struct Count {
    pub entries: usize,
}

impl Sink for Count {
    ghost after = { counted };

    fn take(&mut self, _e: Entry, _room: &mut [u32]) {
        self.entries = self.entries.saturating_add(1);
    }
}
