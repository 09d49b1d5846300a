// The clock outputs: MCO = its SEL's clock / PRE.
ghost use Rattle.std.specs.Prelude.{◌≡◌};
ghost use Rattle.rules.specs.Manual.Tree as Tree;
ghost use Rattle.rules.specs.Manual.Tree.{fed_by};
ghost use Rattle.exact.specs.Exact.{reading_of};

use crate::Exact;
use crate::bank::Bank;
use fields::{MCO1PRE, MCO1SEL, MCO2PRE, MCO2SEL, P, Q};
use types::{PLL1, PLL2};

impl Bank<'_> {
    // The clock that MCO1 divides. MCO1SEL: 0 HSI, 1 LSE, which gives none, 2 HSE, 3 PLL1 Q, 4 HSI48.
    #[tactic(auto, using(crate::proofs::Chains::chains))]
    fn mco1_source(&self) -> Option<Exact>
        ensures { result ≡ reading_of (Tree.mco1_source_of self.now.words.now (fed_by self.now.hse)) }
    {
        match self.word(MCO1SEL) {
            0 => self.hsi(),
            2 => self.hse(),
            3 => self.output(PLL1, Q),
            4 => self.hsi48(),
            _ => None,
        }
    }

    // MCO1 = its source / MCO1PRE.
    #[tactic(auto, unfolding(rules::specs::Manual::Tree::mco1_of))]
    pub fn mco1(&self) -> Option<Exact>
        ensures { result ≡ reading_of (Tree.mco1_of self.now.words.now (fed_by self.now.hse)) }
    {
        self.divided(self.mco1_source(), MCO1PRE)
    }

    // The clock that MCO2 divides. MCO2SEL: 0 system, 1 PLL2 P, 2 HSE, 3 PLL1 P, 4 CSI, 5 LSI.
    #[tactic(auto, using(crate::proofs::Chains::chains),)]
    fn mco2_source(&self) -> Option<Exact>
        ensures { result ≡ reading_of (Tree.mco2_source_of self.now.words.now (fed_by self.now.hse)) }
    {
        match self.word(MCO2SEL) {
            0 => self.sys(),
            1 => self.output(PLL2, P),
            2 => self.hse(),
            3 => self.output(PLL1, P),
            4 => self.csi(),
            5 => self.lsi(),
            _ => None,
        }
    }

    // MCO2 = its source / MCO2PRE.
    #[tactic(auto, unfolding(rules::specs::Manual::Tree::mco2_of))]
    pub fn mco2(&self) -> Option<Exact>
        ensures { result ≡ reading_of (Tree.mco2_of self.now.words.now (fed_by self.now.hse)) }
    {
        self.divided(self.mco2_source(), MCO2PRE)
    }
}
