// The clock that a selector takes.
ghost use Rattle.std.specs.Prelude.{◌≡◌};
ghost use Rattle.rules.specs.Document01.OnePll as Rules;
ghost use Rattle.rules.specs.Document01.Mco as Mco;
ghost use Rattle.rules.specs.Document01.Buses as Step5;

use types::{Mco1Source, Mco2Source, PllSettings, Refusal, Selected};

// By a match, since a `?` copies the settings.
pub fn p_clock(pll: &Option<PllSettings>) -> Option<u32>
    ensures { result ≡ Rules.p_clock pll.now }
{
    match pll {
        None => None,
        Some(s) => hertz::clock_of(s.p),
    }
}

pub fn q_clock(pll: &Option<PllSettings>) -> Option<u32>
    ensures { result ≡ Rules.q_clock pll.now }
{
    match pll {
        None => None,
        Some(s) => hertz::clock_of(s.q),
    }
}

// Refusals 20 and 21, by the clock of PLL1 Q.
#[tactic(auto, unfolding(rules::specs::Document01::Mco::mco1_input))]
pub fn mco1_input(source: Mco1Source, hse: Option<u32>, pll1: Option<u32>) -> Result<u32, Refusal>
    ensures { result ≡ Mco.mco1_input source hse pll1 }
{
    match source {
        Mco1Source::Hsi => Ok(32_000_000),
        Mco1Source::Lse => Err(Refusal::Mco1Lse),
        Mco1Source::Hse => Ok(hse.unwrap_or(0)),
        Mco1Source::Pll1Q => pll1.ok_or(Refusal::McoNoOutput),
        Mco1Source::Hsi48 => Ok(48_000_000),
    }
}

// Refusal 21, by the clocks of PLL1 P and PLL2 P.
#[tactic(auto, unfolding(rules::specs::Document01::Mco::mco2_input))]
pub fn mco2_input(
    source: Mco2Source,
    system: u32,
    hse: Option<u32>,
    pll1: Option<u32>,
    pll2: Option<u32>,
) -> Result<u32, Refusal>
    ensures { result ≡ Mco.mco2_input source system hse pll1 pll2 }
{
    match source {
        Mco2Source::Sysclk => Ok(system),
        Mco2Source::Pll2P => pll2.ok_or(Refusal::McoNoOutput),
        Mco2Source::Hse => Ok(hse.unwrap_or(0)),
        Mco2Source::Pll1P => pll1.ok_or(Refusal::McoNoOutput),
        Mco2Source::Csi => Ok(4_000_000),
        Mco2Source::Lsi => Ok(32_000),
    }
}

// CSI at 4,000,000 Hz, else HSI.
pub fn csi_or_hsi(h: u32) -> Selected
    ensures { result ≡ Step5.csi_or_hsi h }
{
    if h == 4_000_000 {
        return Selected {
            sel: 1,
            clock: 4_000_000,
        };
    }
    Selected {
        sel: 0,
        clock: 32_000_000,
    }
}
