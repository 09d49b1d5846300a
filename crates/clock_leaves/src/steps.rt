// FRACN, VCO and wait states, on numbers.
ghost use Rattle.std.specs.Prelude.{◌≡◌};
ghost use Rattle.ieee754.specs.Whole.{fracn_for};
ghost use Rattle.rules.specs.Document01.Flash.{flash_of};
ghost use Rattle.flash.specs.Flash.{packed};
ghost use Rattle.clock_leaves.specs.Leaves.{fracn_code, vco_code, waits_for, waits_code};

use types::Scale;

// FRACN 0 to 8191 for an output and its divider; 8192 where it is out of range.
pub fn clock_fracn(reference: u32, n: u32, output: u32, divider: u32) -> u32
    ensures { result ≡ fracn_code (fracn_for reference n divider output) }
{
    fracn::fracn_for(reference, n, divider, output).map_or(8192, |f| f as u32)
}

// The VCO in hertz of a FRACN of 16 bits; 0 of a wider one.
pub fn clock_vco(reference: u32, n: u32, fracn: u32) -> u32
    ensures { result ≡ vco_code reference n fracn }
{
    if fracn < 65536 {
        return fracn::calc_vco_ck(reference, n, fracn as u16);
    }
    0
}

#[tactic(auto, using(flash::proofs::Small::small_waits))]
fn wait_states(ahb: u32, scale: Scale) -> u32
    ensures { result ≡ packed (flash_of scale ahb) }
{
    let w = flash::flash_setup(ahb, scale);
    w.latency + 8 * w.delay
}

// Latency + 8 × delay for an AHB clock and a voltage scale; 255 for no such scale, which is refusal 1, or a clock of 0 Hz, which is 19.
#[tactic(auto, using(types::proofs::Coded::coded_is), unfolding(crate::specs::Leaves::waits_for))]
pub fn clock_flash(ahb: u32, scale: u32) -> u32
    ensures { result ≡ waits_code (waits_for ahb scale) }
{
    if ahb == 0 {
        return 255;
    }
    match Scale::try_from(scale) {
        Ok(scale) => wait_states(ahb, scale),
        Err(_) => 255,
    }
}
