// A PLL's clocks.
ghost use Rattle.std.specs.Prelude.{◌≡◌, ◌<◌};
ghost use Rattle.rules.specs.Manual.Path.{PllName};
ghost use Rattle.rules.specs.Manual.Tree as Tree;
ghost use Rattle.rules.specs.Manual.Tree.{Output, number, pll_word, divider, from_oscillator};
ghost use Rattle.rules.specs.Manual.Tree.{fed_by};
ghost use Rattle.exact.specs.Exact.{reading_of};

use crate::bank::Bank;
use crate::{Exact, steps};
use fields::{FRACEN, FRACN, M, N, ON, SRC, of_pll};
use types::PllNumber;

impl Bank<'_> {
    // A word of a PLL.
    fn pll_word(&self, pll: PllNumber, f: usize) -> u32
        requires { f < 15 }
        ensures { (j : PllName) → number j ≡ pll.k → result ≡ pll_word self.now.words.now j f }
    {
        self.word(of_pll(pll) + f)
    }

    // SRC: 0 none, 1 HSI, 2 CSI, 3 HSE.
    #[tactic(auto, using(crate::proofs::Chains::chains), unfolding(rules::specs::Manual::Tree::source_of))]
    fn source(&self, pll: PllNumber) -> Option<Exact>
        ensures { (j : PllName) → number j ≡ pll.k → result ≡ reading_of (from_oscillator (Tree.source_of self.now.words.now (fed_by self.now.hse) j)) }
    {
        match self.pll_word(pll, SRC) {
            1 => self.hsi(),
            2 => self.csi(),
            3 => self.hse(),
            _ => None,
        }
    }

    // VCO, by M, N, FRACEN and FRACN.
    #[tactic(auto, using(crate::proofs::Chains::chains), unfolding(rules::specs::Manual::Tree::vco_of))]
    fn vco(&self, pll: PllNumber) -> Option<Exact>
        ensures { (j : PllName) → number j ≡ pll.k → result ≡ reading_of (Tree.vco_of self.now.words.now (fed_by self.now.hse) j) }
    {
        let m = self.pll_word(pll, M);
        let n = self.pll_word(pll, N);
        let fracen = self.pll_word(pll, FRACEN);
        let fracn = self.pll_word(pll, FRACN);
        steps::vco_by(self.source(pll), m, n, fracen, fracn)
    }

    // P, Q or R: VCO / divider, the divider being its field + 1; none with ON or the output's enable at 0. An enable stands after its divider.
    #[tactic(auto, using(crate::proofs::Chains::chains), unfolding(rules::specs::Manual::Tree::output_of))]
    pub fn output(&self, pll: PllNumber, field: usize) -> Option<Exact>
        requires { field < 14 }
        ensures { (j : PllName) (o : Output) → number j ≡ pll.k → divider o ≡ field → result ≡ reading_of (Tree.output_of self.now.words.now (fed_by self.now.hse) j o) }
    {
        if self.pll_word(pll, ON) == 0 {
            return None;
        }
        if self.pll_word(pll, field + 1) == 0 {
            return None;
        }
        steps::over(self.vco(pll), self.pll_word(pll, field) as u64 + 1)
    }
}
