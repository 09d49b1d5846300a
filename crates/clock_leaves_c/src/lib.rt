// The C functions of the leaves, exported: each calls the function of its name in clock_leaves and promises the same. include/clock_api.h.
#![tactic(auto)]

ghost use Rattle.std.specs.Prelude.{◌≡◌, eqb, length};
ghost use Rattle.clock_leaves.specs.Leaves.{bus_room, fracn_code, hertz_in, leaf_code, leaf_fits, mco_room, vco_code, waits_code, waits_for};
ghost use Rattle.clock_leaves.specs.Reasons.{reason_room};
ghost use Rattle.ieee754.specs.Whole.{fracn_for};
ghost use Rattle.rules.specs.Document01.Buses.{ahb_of, apb_of, timer_of};
ghost use Rattle.rules.specs.Document01.Mco.{mco_of};
ghost use Rattle.rules.specs.Document01.ResetReason.{reset_of};

// The AHB divisor and clock for a system clock, in two words.
#[unsafe(no_mangle)]
pub extern "C" fn clock_ahb(system: u32, set: u32, hertz: u32, out: &mut [u32]) -> u32
    ensures code { result ≡ leaf_code (leaf_fits set 2 (length out.old)) (ahb_of system (hertz_in set hertz)) }
    ensures out { out.new ≡ bus_room (leaf_fits set 2 (length out.old)) (ahb_of system (hertz_in set hertz)) out.old }
{
    clock_leaves::prescalers::clock_ahb(system, set, hertz, out)
}

// An APB divisor and clock for an AHB clock, in two words.
#[unsafe(no_mangle)]
pub extern "C" fn clock_apb(hclk: u32, set: u32, hertz: u32, out: &mut [u32]) -> u32
    ensures code { result ≡ leaf_code (leaf_fits set 2 (length out.old)) (apb_of hclk (hertz_in set hertz)) }
    ensures out { out.new ≡ bus_room (leaf_fits set 2 (length out.old)) (apb_of hclk (hertz_in set hertz)) out.old }
{
    clock_leaves::prescalers::clock_apb(hclk, set, hertz, out)
}

// The timer clock for an AHB clock and an APB divisor.
#[unsafe(no_mangle)]
pub extern "C" fn clock_timer(hclk: u32, ppre: u32) -> u32
    ensures { result ≡ timer_of hclk ppre }
{
    clock_leaves::prescalers::clock_timer(hclk, ppre)
}

// A clock output's prescaler and clock for the clock of its source, in three words: the prescaler, 0 or 1, the hertz.
#[unsafe(no_mangle)]
pub extern "C" fn clock_mco(clock: u32, set: u32, hertz: u32, out: &mut [u32]) -> u32
    ensures code { result ≡ leaf_code (leaf_fits set 3 (length out.old)) (mco_of clock (hertz_in set hertz)) }
    ensures out { out.new ≡ mco_room (leaf_fits set 3 (length out.old)) (mco_of clock (hertz_in set hertz)) out.old }
{
    clock_leaves::prescalers::clock_mco(clock, set, hertz, out)
}

// The reset reason, the word as read and the word to write back, in three words.
#[unsafe(no_mangle)]
pub extern "C" fn clock_reset_reason(plls: u32, word: u32, out: &mut [u32]) -> u32
    ensures code { result ≡ leaf_code (eqb (length out.old) 3) (reset_of plls word) }
    ensures out { out.new ≡ reason_room (eqb (length out.old) 3) (reset_of plls word) word out.old }
{
    clock_leaves::reset::clock_reset_reason(plls, word, out)
}

// FRACN 0 to 8191 for an output and its divider; 8192 where it is out of range.
#[unsafe(no_mangle)]
pub extern "C" fn clock_fracn(reference: u32, n: u32, output: u32, divider: u32) -> u32
    ensures { result ≡ fracn_code (fracn_for reference n divider output) }
{
    clock_leaves::steps::clock_fracn(reference, n, output, divider)
}

// The VCO in hertz of a FRACN of 16 bits; 0 of a wider one.
#[unsafe(no_mangle)]
pub extern "C" fn clock_vco(reference: u32, n: u32, fracn: u32) -> u32
    ensures { result ≡ vco_code reference n fracn }
{
    clock_leaves::steps::clock_vco(reference, n, fracn)
}

// Latency + 8 × delay for an AHB clock and a voltage scale; 255 for no such scale, which is refusal 1, or a clock of 0 Hz, which is 19.
#[unsafe(no_mangle)]
pub extern "C" fn clock_flash(ahb: u32, scale: u32) -> u32
    ensures { result ≡ waits_code (waits_for ahb scale) }
{
    clock_leaves::steps::clock_flash(ahb, scale)
}
