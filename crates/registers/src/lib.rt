// What do the register entries of an answer store in the bank? Document 01, Register entries.
#![tactic(auto)]

ghost use Rattle.std.specs.Prelude.{◌≡◌};
ghost use Rattle.rules.specs.Document01.Entries.{entries_of};
ghost use Rattle.rules.specs.Document01.Bank.{apply_all};
ghost use Rattle.registers.specs.Bank.{applied};

use entries::sink::Sink;
use fields::put;
use types::{Entry, Plan, Refusal};

// A sink whose room is a bank: an entry is applied to it. A field past its end is not stored.
#[derive(Clone, Copy)]
pub struct Bank;

impl Sink for Bank {
    ghost after = { applied };

    fn take(&mut self, e: Entry, room: &mut [u32]) {
        match e {
            Entry::Set(f, v) => self.set(f, v, room),
            Entry::Set2(f, v, g, w) => self.set2(f, v, g, w, room),
            Entry::Set3(f, v, g, w, h, x) => self.set3(f, v, g, w, h, x, room),
            Entry::Set4(f, v, g, w, h, x, k, y) => self.set4(f, v, g, w, h, x, k, y, room),
            _ => {}
        }
    }

    fn set(&mut self, f: usize, v: u32, room: &mut [u32]) {
        put(f, v, room)
    }

    fn set2(&mut self, f: usize, v: u32, g: usize, w: u32, room: &mut [u32]) {
        put(f, v, room);
        put(g, w, room)
    }

    fn set3(&mut self, f: usize, v: u32, g: usize, w: u32, h: usize, x: u32, room: &mut [u32]) {
        put(f, v, room);
        put(g, w, room);
        put(h, x, room)
    }

    fn set4(
        &mut self,
        f: usize,
        v: u32,
        g: usize,
        w: u32,
        h: usize,
        x: u32,
        k: usize,
        y: u32,
        room: &mut [u32],
    ) {
        put(f, v, room);
        put(g, w, room);
        put(h, x, room);
        put(k, y, room)
    }

    fn wait(&mut self, _f: usize, _v: u32, _room: &mut [u32]) {}

    fn wait2(&mut self, _f: usize, _v: u32, _g: usize, _w: u32, _room: &mut [u32]) {}

    fn check(&mut self, _f: usize, _v: u32, _room: &mut [u32]) {}
}

// The bank becomes what the whole list leaves of it. A field past its end is not stored, and a refusal stores nothing.
pub fn apply(x: Result<Plan, Refusal>, bank: &mut [u32])
    ensures { bank.new ≡ apply_all (entries_of x) bank.old }
{
    entries::tell(&x, &mut Bank, bank);
}
