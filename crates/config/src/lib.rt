// A request before its PLLs are planned: the limits, what an MCO fills, the source and the system clock. rcc.rs (the setters, sys_ck_setup) and
// mco.rs (mco1_setup, mco2_setup).
#![tactic(auto)]

ghost use Rattle.std.specs.Prelude.{◌≡◌, ◌≤◌, IfOk};
ghost use Rattle.config.specs.Config.{settled_of};

use types::{PllRequest, Refusal, Request};

mod fills;
mod limits;

// What steps 1 to 3 settle: the source, the system clock, whether it needs PLL1 P, and what each PLL is asked for,
// by its number.
#[derive(Clone, Copy)]
pub struct Configured {
    pub source: u32,
    pub system: u32,
    pub needs: bool,
    pub plls: [PllRequest; 3],
}

// Steps 1 to 3, with refusals 3 to 6. The source is above 0 Hz.
#[tactic(auto, unfolding(rules::specs::Document01::Request::configured))]
pub fn configure(q: &Request) -> Result<Configured, Refusal>
    ensures rules { result ≡ settled_of q.now }
    ensures above_zero { IfOk result (λ s. 1 ≤ s.source) }
{
    limits::limited(q)?;
    limits::stated(q)?;
    let source = q.hse.unwrap_or(32_000_000);
    let system = fills::system_asked(q).unwrap_or(source);
    let needs = system != source;
    let mut pll1 = fills::pll1_asked(q);
    if needs {
        if !fills::like(pll1.p, system) {
            return Err(Refusal::Pll1PUnlikeSystem);
        }
        pll1 = fills::with_p(pll1, system);
    }
    if source == 0 {
        return Err(Refusal::SourceZero);
    }
    let pll2 = fills::pll2_asked(q);
    Ok(Configured {
        source,
        system,
        needs,
        plls: [pll1, pll2, q.plls[2]],
    })
}
