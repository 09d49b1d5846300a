// AHB, APB, timer and clock output divisors, on numbers. A requested clock is two numbers: 0 for unset, 1 and the hertz.
ghost use Rattle.std.specs.Prelude.{◌≡◌, length, true};
ghost use Rattle.rules.specs.Document01.Buses.{ahb_of, apb_of, timer_of};
ghost use Rattle.rules.specs.Document01.Mco.{mco_of};
ghost use Rattle.rules.specs.Document01.Refusals.{code_of};
ghost use Rattle.clock_leaves.specs.Leaves.{leaf_code, hertz_in, bus_room, mco_room, leaf_fits};

use crate::three;
use types::{Bus, Mco, Refusal};

fn hertz_in(set: u32, hertz: u32) -> Option<u32>
    ensures { result ≡ hertz_in set hertz }
{
    if set == 0 { None } else { Some(hertz) }
}

fn fits(set: u32, words: usize, length: usize) -> bool
    ensures { result ≡ leaf_fits set words length }
{
    set < 2 && length == words
}

fn bus(x: Result<Bus, Refusal>, out: &mut [u32]) -> u32
    requires { length out.old ≡ 2 }
    ensures code { result ≡ code_of x }
    ensures out { out.new ≡ bus_room true x out.old }
{
    match x {
        Err(n) => refusal::number_of(n),
        Ok(b) => {
            out[0] = b.pre;
            out[1] = b.clock;
            0
        }
    }
}

// The AHB divisor and clock for a system clock, in two words.
pub fn clock_ahb(system: u32, set: u32, hertz: u32, out: &mut [u32]) -> u32
    ensures code { result ≡ leaf_code (leaf_fits set 2 (length out.old)) (ahb_of system (hertz_in set hertz)) }
    ensures out { out.new ≡ bus_room (leaf_fits set 2 (length out.old)) (ahb_of system (hertz_in set hertz)) out.old }
{
    if !fits(set, 2, out.len()) {
        return 1;
    }
    bus(prescaler::ahb(system, hertz_in(set, hertz)), out)
}

// An APB divisor and clock for an AHB clock, in two words.
pub fn clock_apb(hclk: u32, set: u32, hertz: u32, out: &mut [u32]) -> u32
    ensures code { result ≡ leaf_code (leaf_fits set 2 (length out.old)) (apb_of hclk (hertz_in set hertz)) }
    ensures out { out.new ≡ bus_room (leaf_fits set 2 (length out.old)) (apb_of hclk (hertz_in set hertz)) out.old }
{
    if !fits(set, 2, out.len()) {
        return 1;
    }
    bus(prescaler::apb(hclk, hertz_in(set, hertz)), out)
}

// The timer clock for an AHB clock and an APB divisor.
pub fn clock_timer(hclk: u32, ppre: u32) -> u32
    ensures { result ≡ timer_of hclk ppre }
{
    prescaler::timer(hclk, ppre)
}

fn output(x: Result<Mco, Refusal>, out: &mut [u32]) -> u32
    requires { length out.old ≡ 3 }
    ensures code { result ≡ code_of x }
    ensures out { out.new ≡ mco_room true x out.old }
{
    match x {
        Err(n) => refusal::number_of(n),
        Ok(m) => three(m.pre, m.clock.is_some() as u32, m.clock.unwrap_or(0), out),
    }
}

// A clock output's prescaler and clock for the clock of its source, in three words: the prescaler, 0 or 1, the hertz.
pub fn clock_mco(clock: u32, set: u32, hertz: u32, out: &mut [u32]) -> u32
    ensures code { result ≡ leaf_code (leaf_fits set 3 (length out.old)) (mco_of clock (hertz_in set hertz)) }
    ensures out { out.new ≡ mco_room (leaf_fits set 3 (length out.old)) (mco_of clock (hertz_in set hertz)) out.old }
{
    if !fits(set, 3, out.len()) {
        return 1;
    }
    output(prescaler::mco(clock, hertz_in(set, hertz)), out)
}
