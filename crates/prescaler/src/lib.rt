// The prescalers: rcc.rs, HPRE, PPRE and the timers; mco.rs, calculate_prescaler.
#![tactic(auto)]

ghost use Rattle.std.specs.Prelude.{◌≡◌, ℕ, cond, leb, ◌≤◌, unwrap_or};
ghost use Rattle.rules.specs.Document01.Hertz.{ratio_of};
ghost use Rattle.rules.specs.Document01.Buses.{hpre_of, ppre_of, ahb_of, apb_of, timer_of};
ghost use Rattle.rules.specs.Document01.Mco.{mco_of};
ghost use Rattle.prescaler.specs.Bus.{BusBy};

use types::{Bus, Mco, Refusal};

// clock / wanted, rounded up. The compiler makes no branch of it, which could not be foreseen.
#[tactic(auto, using(crate::proofs::Up::up))]
fn ratio(clock: u32, wanted: u32) -> u32
    requires { 1 ≤ wanted }
    ensures { result ≡ ratio_of clock wanted }
{
    clock.div_ceil(wanted)
}

// The ratio for a bus. A clock of 0 Hz has a ratio of 0.
#[tactic(auto, unfolding(rules::specs::Document01::Hertz::ratio_of))]
fn bus_ratio(clock: u32, requested: Option<u32>) -> u32
    ensures { result ≡ ratio_of clock (unwrap_or requested clock) }
{
    let wanted = requested.unwrap_or(clock);
    if wanted == 0 {
        return 0;
    }
    ratio(clock, wanted)
}

// A row's divisor for a ratio up to its bound, else what the rows behind it give. The rows below are chains of it, from the last to the first.
fn row(ratio: u32, bound: u32, divisor: u32, behind: u32) -> u32
    ensures { result ≡ cond (leb ratio bound) divisor behind }
{
    if ratio <= bound { divisor } else { behind }
}

// PPRE for a ratio.
fn ppre_of(ratio: u32) -> u32
    ensures { result ≡ ppre_of ratio }
{
    let above_5 = row(ratio, 11, 8, 16);
    let above_2 = row(ratio, 5, 4, above_5);
    let above_1 = row(ratio, 2, 2, above_2);
    row(ratio, 1, 1, above_1)
}

// HPRE for a ratio.
fn hpre_of(ratio: u32) -> u32
    ensures { result ≡ hpre_of ratio }
{
    let above_191 = row(ratio, 383, 256, 512);
    let above_95 = row(ratio, 191, 128, above_191);
    let above_39 = row(ratio, 95, 64, above_95);
    let above_11 = row(ratio, 39, 16, above_39);
    let above_5 = row(ratio, 11, 8, above_11);
    let above_2 = row(ratio, 5, 4, above_5);
    let above_1 = row(ratio, 2, 2, above_2);
    row(ratio, 1, 1, above_1)
}

// A bus from the clock that it divides, by a table of divisors, with refusal 18.
fn bus<F: Fn(u32) -> u32>(clock: u32, requested: Option<u32>, divisor: F) -> Result<Bus, Refusal>
    requires callable { F.IsAlwaysCallable divisor }
    requires above { (ratio n : ℕ) → F.post divisor ratio n → 1 ≤ n }
    ensures { BusBy (F.post divisor) clock requested result }
{
    if !hertz::not_zero(requested) {
        return Err(Refusal::BusZero);
    }
    let pre = divisor(bus_ratio(clock, requested));
    Ok(Bus {
        pre,
        clock: clock / pre,
    })
}

// AHB from the system clock, with refusals 18 and 19.
#[tactic(auto, using(rules::proofs::Document01::Ratios::hpre_pos), unfolding(rules::specs::Document01::Buses::ahb_of))]
pub fn ahb(system: u32, requested: Option<u32>) -> Result<Bus, Refusal>
    ensures { result ≡ ahb_of system requested }
{
    let b = bus(system, requested, hpre_of)?;
    if b.clock == 0 {
        return Err(Refusal::AhbZero);
    }
    Ok(b)
}

// An APB from the AHB clock, with refusal 18.
#[tactic(auto, using(rules::proofs::Document01::Ratios::ppre_pos), unfolding(rules::specs::Document01::Buses::apb_of))]
pub fn apb(hclk: u32, requested: Option<u32>) -> Result<Bus, Refusal>
    ensures { result ≡ apb_of hclk requested }
{
    bus(hclk, requested, ppre_of)
}

// The clock of the timers on an APB, by the APB's divisor.
#[tactic(auto, unfolding(rules::specs::Document01::Buses::timer_of))]
pub fn timer(hclk: u32, ppre: u32) -> u32
    ensures { result ≡ timer_of hclk ppre }
{
    match ppre {
        4 => hclk / 2,
        8 => hclk / 4,
        16 => hclk / 8,
        _ => hclk,
    }
}

// The largest divisor of a clock output.
const MCO_MOST: u32 = 15;

// A clock output from the clock of its source, with refusals 22 and 23.
#[tactic(auto, unfolding(rules::specs::Document01::Mco::mco_of))]
pub fn mco(clock: u32, requested: Option<u32>) -> Result<Mco, Refusal>
    ensures { result ≡ mco_of clock requested }
{
    match requested {
        None => Ok(Mco {
            pre: 0,
            clock: None,
        }),
        Some(h) => {
            if h == 0 {
                return Err(Refusal::McoZero);
            }
            let pre = ratio(clock, h);
            if pre < 1 {
                return Err(Refusal::McoRatio);
            }
            if pre > MCO_MOST {
                return Err(Refusal::McoRatio);
            }
            Ok(Mco {
                pre,
                clock: Some(clock / pre),
            })
        }
    }
}
