// Steps 2 and 3: what an MCO fills, and PLL1 P where the system clock needs it.
ghost use Rattle.std.specs.Prelude.{◌≡◌};
ghost use Rattle.rules.specs.Document01.Request as Rules;

use types::{Mco1Source, Mco2Source, PllRequest, Request};

// The system clock, filled.
pub fn system_asked(q: &Request) -> Option<u32>
    ensures { result ≡ Rules.system_asked q.now }
{
    q.system
        .or(q.mco2.filter(|_| q.mco2source == Mco2Source::Sysclk))
}

// PLL1, its P and Q filled.
pub fn pll1_asked(q: &Request) -> PllRequest
    ensures { result ≡ Rules.pll1_asked q.now }
{
    let own = q.plls[0];
    PllRequest {
        p: own
            .p
            .or(q.mco2.filter(|_| q.mco2source == Mco2Source::Pll1P)),
        q: own
            .q
            .or(q.mco1.filter(|_| q.mco1source == Mco1Source::Pll1Q)),
        ..own
    }
}

// PLL2, its P filled.
pub fn pll2_asked(q: &Request) -> PllRequest
    ensures { result ≡ Rules.pll2_asked q.now }
{
    let own = q.plls[1];
    PllRequest {
        p: own
            .p
            .or(q.mco2.filter(|_| q.mco2source == Mco2Source::Pll2P)),
        ..own
    }
}

// P is unset, or like the system clock.
pub fn like(p: Option<u32>, system: u32) -> bool
    ensures { result ≡ Rules.like p system }
{
    p.is_none_or(|f| f == system)
}

// P at the system clock's hertz.
pub fn with_p(a: PllRequest, system: u32) -> PllRequest
    ensures { result ≡ Rules.with_p a system }
{
    PllRequest {
        p: Some(system),
        ..a
    }
}
