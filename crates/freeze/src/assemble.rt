// A plan from what was chosen, part by part.
ghost use Rattle.std.specs.Prelude.{◌≡◌};
ghost use Rattle.rules.specs.Document01.Buses.{peripheral_of};
ghost use Rattle.rules.specs.Document01.Plan as Rules;

use crate::settled::Settled;
use types::{Buses, Clocks, Mcos, Plan, PllSettings, Request, Selected};

// The clocks, by the peripheral clock.
fn clocks(q: &Request, system: u32, per: Selected, b: Buses) -> Clocks
    requires { per ≡ peripheral_of q.now.peripheral q.now.hse }
    ensures { result ≡ Rules.clocks_with q.now system b }
{
    let hclk = b.ahb.clock;
    Clocks {
        sys: system,
        timx: prescaler::timer(hclk, b.apb1.pre),
        timy: prescaler::timer(hclk, b.apb2.pre),
        per: per.clock,
        hsi: 32_000_000,
        csi: 4_000_000,
        hsi48: 48_000_000,
        lsi: 32_000,
        hse: q.hse,
        lse: q.lse,
        audio: q.audio,
    }
}

impl Settled<'_> {
    #[tactic(auto, unfolding(rules::specs::Document01::Plan::plan_with))]
    pub fn accepted(
        &self,
        system: u32,
        plls: &[Option<PllSettings>; 3],
        buses: Buses,
        mcos: Mcos,
    ) -> Plan
        requires { system ≡ Rules.system_from self.now.q.now plls.now }
        ensures { result ≡ Rules.plan_with self.now.q.now self.now.c.now plls.now buses mcos }
    {
        let q = self.q;
        let per = core_clocks::peripheral(q.peripheral, q.hse);
        Plan {
            clocks: clocks(q, system, per, buses),
            buses,
            mcos,
            waits: flash::flash_setup(buses.ahb.clock, self.c.scale),
            selectors: self.selectors(per),
            bypass: q.bypass,
            three: self.c.three,
            plls: *plls,
        }
    }
}
