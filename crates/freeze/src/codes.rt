// The numbers that stand in the fields of selectors.
ghost use Rattle.std.specs.Prelude.{◌≡◌};
ghost use Rattle.rules.specs.Document01.Buses.{peripheral_of};
ghost use Rattle.rules.specs.Document01.Plan as Rules;

use crate::settled::Settled;
use types::{Selected, Selectors};

fn src_of(hse: Option<u32>) -> u32
    ensures { result ≡ Rules.src_of hse }
{
    match hse {
        None => 1,
        Some(_) => 3,
    }
}

fn sw_of(needs: bool, hse: Option<u32>) -> u32
    ensures { result ≡ Rules.sw_of needs hse }
{
    if needs {
        return 3;
    }
    match hse {
        None => 0,
        Some(_) => 2,
    }
}

impl Settled<'_> {
    // The codes, by the peripheral clock and whether the system clock is PLL1 P.
    pub fn selectors(&self, per: Selected) -> Selectors
        requires { per ≡ peripheral_of self.now.q.now.peripheral self.now.q.now.hse }
        ensures { result ≡ Rules.selectors_of self.now.q.now }
    {
        let q = self.q;
        Selectors {
            src: src_of(q.hse),
            sw: sw_of(self.s.needs, q.hse),
            ckpersel: per.sel,
            mco1sel: q.mco1source as u32,
            mco2sel: q.mco2source as u32,
        }
    }
}
