// A unit of hertz.
ghost use Rattle.std.specs.Prelude.{◌≤◌};

// How many zeros it stands for.
#[derive(Clone, Copy)]
pub struct Unit {
    pub zeros: usize,
    ghost small: { zeros ≤ 6 },
}

// No unit is written: a number of hertz.
pub const HERTZ: Unit = Unit { zeros: 0 };

pub const KILO: Unit = Unit { zeros: 3 };

pub const MEGA: Unit = Unit { zeros: 6 };
