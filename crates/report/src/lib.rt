// A plan's report as 55 words: docs/CODES.md, The C functions; and the plan that is reported where there is none.
#![tactic(auto)]

ghost use Rattle.std.specs.Prelude.{◌≡◌};
ghost use Rattle.rules.specs.Words.{stored_from, report_words};
ghost use Rattle.report.specs.Report.{always_words, given_words, output_words, divisor_words, parts_words};
ghost use Rattle.room.specs.Write.{Wrote};

pub use blank::blank_plan;
use room::Room;
use types::{Buses, Clocks, Mcos, Plan, PllSettings};
use write::{clock, four, pll, three};

mod blank;
mod write;

// The system clock, the buses, the timers, the peripheral clock and the chip's oscillators.
#[tactic(auto, using(room::proofs::Written::parts), unfolding(crate::specs::Report::always_words))]
#[inline(always)]
fn always(out: &mut Room<u32>, c: &Clocks, b: &Buses)
    ensures { Wrote out.old out.new (always_words c.now b.now) }
{
    four(out, c.sys, b.ahb.clock, b.apb1.clock, b.apb2.clock);
    four(out, b.apb3.clock, c.timx, c.timy, c.per);
    four(out, c.hsi, c.csi, c.hsi48, c.lsi);
}

// The crystals and the clock outputs.
#[tactic(auto, using(room::proofs::Written::parts), unfolding(crate::specs::Report::given_words))]
#[inline(always)]
fn given(out: &mut Room<u32>, c: &Clocks, m: &Mcos)
    ensures { Wrote out.old out.new (given_words c.now m.now) }
{
    three(out, c.hse, c.lse, c.audio);
    clock(out, m.mco1.clock);
    clock(out, m.mco2.clock);
}

// P, Q and R of each PLL.
#[tactic(auto, using(room::proofs::Written::parts), unfolding(crate::specs::Report::output_words))]
#[inline(always)]
fn outputs(out: &mut Room<u32>, plls: &[Option<PllSettings>; 3])
    ensures { Wrote out.old out.new (output_words plls.now) }
{
    pll(out, &plls[0]);
    pll(out, &plls[1]);
    pll(out, &plls[2]);
}

// PPRE1 to 3.
#[tactic(auto, using(room::proofs::Written::parts), unfolding(crate::specs::Report::divisor_words))]
#[inline(always)]
fn divisors(out: &mut Room<u32>, b: &Buses)
    ensures { Wrote out.old out.new (divisor_words b.now) }
{
    out.put(b.apb1.pre);
    out.put(b.apb2.pre);
    out.put(b.apb3.pre);
}

// The clocks, then PPRE1 to 3.
#[tactic(auto, using(room::proofs::Written::parts))]
#[inline(always)]
fn all(out: &mut Room<u32>, plan: &Plan)
    ensures { Wrote out.old out.new (parts_words plan.now) }
{
    always(out, &plan.clocks, &plan.buses);
    given(out, &plan.clocks, &plan.mcos);
    outputs(out, &plan.plls);
    divisors(out, &plan.buses);
}

// The whole report, as far as there is room.
#[tactic(auto, using(crate::proofs::Written::whole))]
pub fn store_report(plan: &Plan, out: &mut [u32])
    ensures { out.new ≡ stored_from out.old 0 (report_words plan.now) }
{
    let mut room = Room { items: out, at: 0 };
    all(&mut room, plan);
}
