// The clocks behind the PLLs: system, peripheral, buses and clock outputs. core_clocks.rs, rcc.rs (freeze) and mco.rs (mco1_setup, mco2_setup).
#![tactic(auto)]

ghost use Rattle.std.specs.Prelude.{◌≡◌, cond, unwrap_or};
ghost use Rattle.rules.specs.Document01.OnePll.{p_clock, pll_from};
ghost use Rattle.rules.specs.Document01.Buses.{peripheral_of};
ghost use Rattle.rules.specs.Document01.Plan.{buses_of, mcos_of};

use types::{Buses, Mcos, PllSettings, Refusal, Request, Selected};

mod sources;

// The system clock: PLL1 P as reported where it is needed, else the source.
pub fn system_from(needs: bool, source: u32, plls: &[Option<PllSettings>; 3]) -> u32
    ensures { result ≡ cond needs (unwrap_or (p_clock (pll_from plls.now 0)) 0) source }
{
    if needs {
        return sources::p_clock(&plls[0]).unwrap_or(0);
    }
    source
}

// Step 5, the peripheral clock: HSE if requested equal to it, CSI at 4,000,000 Hz, else HSI.
#[tactic(auto, unfolding(rules::specs::Document01::Buses::peripheral_of))]
pub fn peripheral(requested: Option<u32>, hse: Option<u32>) -> Selected
    ensures { result ≡ peripheral_of requested hse }
{
    match requested {
        None => Selected {
            sel: 0,
            clock: 32_000_000,
        },
        Some(h) if hse == Some(h) => Selected { sel: 2, clock: h },
        Some(h) => sources::csi_or_hsi(h),
    }
}

// Steps 6 and 7, the buses, with refusals 18 and 19.
#[tactic(auto, unfolding(rules::specs::Document01::Plan::buses_of))]
pub fn bus_clocks(q: &Request, system: u32) -> Result<Buses, Refusal>
    ensures { result ≡ buses_of q.now system }
{
    let ahb = prescaler::ahb(system, q.ahb)?;
    let apb1 = prescaler::apb(ahb.clock, q.apb1)?;
    let apb2 = prescaler::apb(ahb.clock, q.apb2)?;
    let apb3 = prescaler::apb(ahb.clock, q.apb3)?;
    Ok(Buses {
        ahb,
        apb1,
        apb2,
        apb3,
    })
}

// Step 8, the clock outputs, with refusals 20 to 23: MCO1 first.
#[tactic(auto, unfolding(rules::specs::Document01::Plan::mcos_of))]
pub fn mco_clocks(
    q: &Request,
    plls: &[Option<PllSettings>; 3],
    system: u32,
) -> Result<Mcos, Refusal>
    ensures { result ≡ mcos_of q.now plls.now system }
{
    let q1 = sources::q_clock(&plls[0]);
    let input1 = sources::mco1_input(q.mco1source, q.hse, q1)?;
    let mco1 = prescaler::mco(input1, q.mco1)?;
    let p1 = sources::p_clock(&plls[0]);
    let p2 = sources::p_clock(&plls[1]);
    let input2 = sources::mco2_input(q.mco2source, system, q.hse, p1, p2)?;
    let mco2 = prescaler::mco(input2, q.mco2)?;
    Ok(Mcos { mco1, mco2 })
}
