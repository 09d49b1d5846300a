// What one PLL is asked for.
ghost use Rattle.std.specs.Prelude.{◌≡◌, true, ◌≤◌};
ghost use Rattle.rules.specs.Document01.OnePll.{none_zero as no_zero};

use types::PllRequest;

// Whether P may divide by an odd number, the hertz of the source and the request, where refusals 6 and 7 do not fit.
#[derive(Clone, Copy)]
pub struct Asked {
    pub odd: bool,
    pub source: u32,
    pub request: PllRequest,
    ghost source_above: { 1 ≤ source },
    ghost none_zero: { no_zero request ≡ true },
}
