// One function plans a PLL, by its number. rcc.rs (the pll_setup! calls).
ghost use Rattle.std.specs.Prelude.{◌≡◌};
ghost use Rattle.rules.specs.Document01.Plan as Rules;

use crate::settled::Settled;
use types::{PllNumber, PllSettings, Refusal};

impl Settled<'_> {
    // A PLL, where the chip has it.
    #[tactic(auto, unfolding(pll::specs::Answer::one_pll_of))]
    pub fn pll(&self, pll: PllNumber) -> Result<Option<PllSettings>, Refusal>
        ensures { result ≡ Rules.planned_at self.now.q.now self.now.c.now pll.k }
    {
        let there = (pll.k < 2) | self.c.three;
        if !there {
            return Ok(None);
        }
        pll::plan_pll(self.c.odd[pll.k], self.s.source, self.s.plls[pll.k])
    }
}
