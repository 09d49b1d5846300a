// The VCO of a PLL: its range, and the frequency that it is to run at.
ghost use Rattle.std.specs.Prelude.{◌≡◌, ◌≤◌};
ghost use Rattle.rules.specs.Document01.Target.{target_of};
ghost use Rattle.pll.specs.Spans.{range_for};

// VCOSEL, 1 for the medium range, and the ends of its outputs.
#[derive(Clone, Copy)]
pub struct VcoRange {
    pub vcosel: u32,
    pub start: u32,
    pub end: u32,
}

// The first range whose end is strictly above the largest output.
pub fn range_of(most: u32) -> VcoRange
    ensures { result ≡ range_for most }
{
    if most < 420_000_000 {
        return VcoRange {
            vcosel: 1,
            start: 150_000_000,
            end: 420_000_000,
        };
    }
    VcoRange {
        vcosel: 0,
        start: 128_000_000,
        end: 560_000_000,
    }
}

// The target for outputs from least to most.
#[tactic(auto, using(rules::proofs::Document01::Target::target_whole, rules::proofs::Document01::Target::target_cut), unfolding(rules::specs::Document01::Target::top_of))]
pub fn target_of(least: u32, most: u32, end: u32) -> u32
    requires { (1 ≤ least) × (1 ≤ most) }
    ensures { result ≡ target_of least most end }
{
    let top = most * (end / most);
    let divider = top / least;
    if 128 < divider {
        return top / ((divider - 1) / 128 + 1);
    }
    top
}
