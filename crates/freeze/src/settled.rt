// A request and the chip that it is asked of, behind steps 1 to 3.
ghost use Rattle.std.specs.Prelude.{◌≡◌, ◌≤◌, Ok};
ghost use Rattle.config.specs.Config.{settled};
ghost use Rattle.rules.specs.Document01.Request.{configured};

use config::Configured;
use types::{ChipState, Request};

// What the steps settle of a request that they do not refuse; its source is above 0 Hz.
#[derive(Clone, Copy)]
pub struct Settled<'a> {
    pub q: &'a Request,
    pub c: &'a ChipState,
    pub s: &'a Configured,
    ghost passed: { configured q.now ≡ Ok tt },
    ghost by_steps: { s.now ≡ settled q.now },
    ghost above_zero: { 1 ≤ s.now.source },
}
