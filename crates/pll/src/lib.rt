// One PLL, from its request to its settings or a refusal: pll.rs.
#![tactic(auto)]

ghost use Rattle.std.specs.Prelude.{◌≡◌};
ghost use Rattle.rules.specs.Document01.OnePll.{pll_of};
ghost use Rattle.pll.specs.Answer.{one_pll_of, after_span};
ghost use Rattle.pll.specs.Spans.{Spanned};

use asked::Asked;
use types::{PllRequest, PllSettings, Refusal};

mod asked;
mod choice;
mod outputs;
mod settle;
mod vco;

// One PLL of a source of so many hertz: idle, its settings, or a refusal of 6 to 15, in the order of the numbers.
#[tactic(auto, unfolding(crate::specs::Answer::one_pll_of, rules::specs::Document01::OnePll::pll_of, rules::specs::Document01::OnePll::runs, rules::specs::Document01::OnePll::spanned))]
pub fn plan_pll(odd: bool, source: u32, request: PllRequest) -> Result<Option<PllSettings>, Refusal>
    ensures { result ≡ one_pll_of odd source request }
{
    if source == 0 {
        return Err(Refusal::SourceZero);
    }
    if !outputs::none_zero(request) {
        return Err(Refusal::OutputZero);
    }
    Asked {
        odd,
        source,
        request,
    }
    .run()
}

impl Asked {
    // Idle, or refusals 8 and 9.
    #[tactic(auto, unfolding(crate::specs::Answer::after_span, crate::specs::Spans::span_of, rules::specs::Document01::OnePll::pll_of, rules::specs::Document01::OnePll::runs, rules::specs::Document01::OnePll::spanned))]
    fn run(self) -> Result<Option<PllSettings>, Refusal>
        ensures { result ≡ pll_of self.odd self.source self.request }
    {
        let Some(s) = self.span() else {
            return Ok(None);
        };
        if s.least < s.most / 128 {
            return Err(Refusal::OutputsTooFarApart);
        }
        if 560_000_000 <= s.most {
            return Err(Refusal::OutputTooHigh);
        }
        let settings = self.divide(s.least as u32, s.most as u32)?;
        Ok(Some(settings))
    }

    // Refusals 10 and 11: the VCO's range and target, and M.
    #[tactic(auto, using(crate::proofs::Divided::searched_at, crate::proofs::Divided::outside, crate::proofs::Divided::no_m, crate::proofs::Divided::settles_at, crate::proofs::Divided::rest))]
    fn divide(self, least: u32, most: u32) -> Result<PllSettings, Refusal>
        requires { Spanned self least most }
        ensures { result ≡ after_span self.odd self.source self.request }
    {
        let g = vco::range_of(most);
        let target = vco::target_of(least, most, g.end);
        if target < g.start {
            return Err(Refusal::TargetOutside);
        }
        let m = choice::search_m(self.source, target, g.vcosel == 1).ok_or(Refusal::NoM)?;
        self.settle(g.vcosel, target, m)
    }
}
