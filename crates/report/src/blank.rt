// The plan of zeros: what is reported, compared or shown where there is no plan.
ghost use Rattle.std.specs.Prelude.{◌≡◌};
ghost use Rattle.rules.proofs.Stated.Report.{blank_plan};

use types::{Bus, Buses, Clocks, Mco, Mcos, Plan, Selectors, Waits};

// 0 Hz where a plan always has a clock, and no other clock.
const CLOCKS: Clocks = Clocks {
    sys: 0,
    timx: 0,
    timy: 0,
    per: 0,
    hsi: 0,
    csi: 0,
    hsi48: 0,
    lsi: 0,
    hse: None,
    lse: None,
    audio: None,
};

// 0 in every number, and no PLL.
#[tactic(auto, unfolding(rules::proofs::Stated::Report::blank_plan))]
pub fn blank_plan() -> Plan
    ensures { result ≡ blank_plan }
{
    let bus = Bus { pre: 0, clock: 0 };
    let mco = Mco {
        pre: 0,
        clock: None,
    };
    Plan {
        clocks: CLOCKS,
        buses: Buses {
            ahb: bus,
            apb1: bus,
            apb2: bus,
            apb3: bus,
        },
        mcos: Mcos {
            mco1: mco,
            mco2: mco,
        },
        waits: Waits {
            latency: 0,
            delay: 0,
        },
        selectors: Selectors {
            src: 0,
            sw: 0,
            ckpersel: 0,
            mco1sel: 0,
            mco2sel: 0,
        },
        bypass: false,
        three: false,
        plls: [None; 3],
    }
}
