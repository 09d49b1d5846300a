// A hertz that may be unset: whether it is set at 0 Hz, whether a part of a request asks for none, and the hertz of a PLL's output. Document 01,
// One call, from the top.
#![tactic(auto)]

ghost use Rattle.std.specs.Prelude.{◌≡◌};
ghost use Rattle.rules.specs.Document01.Bytes.{is_no_part};
ghost use Rattle.rules.specs.Document01.Hertz.{not_zero};
ghost use Rattle.rules.specs.Document01.OnePll.{clock_of};

use types::{PllOutput, PllRequest, Strategy};

// Whether it is unset or above 0 Hz.
pub fn not_zero(h: Option<u32>) -> bool
    ensures { result ≡ not_zero h }
{
    h != Some(0)
}

// A part of a request that says nothing.
pub fn is_no_part(a: PllRequest) -> bool
    ensures { result ≡ is_no_part a }
{
    matches!(
        a,
        PllRequest {
            strategy: Strategy::Integer,
            p: None,
            q: None,
            r: None,
        }
    )
}

// An output's hertz, where it is on.
pub fn clock_of(output: Option<PllOutput>) -> Option<u32>
    ensures { result ≡ clock_of output }
{
    output.map(|o| o.clock)
}
