// The oscillators: none with its ON at 0.
ghost use Rattle.std.specs.Prelude.{◌≡◌};
ghost use Rattle.rules.specs.Manual.Tree as Tree;
ghost use Rattle.rules.specs.Manual.Tree.{Oscillator, runs, switched, word as word_of, from_oscillator};
ghost use Rattle.rules.specs.Manual.Tree.{fed_by};
ghost use Rattle.exact.specs.Exact.{reading_of};

use crate::Exact;
use crate::bank::Bank;
use fields::{CSION, HSEON, HSI48ON, HSIDIV, HSION, LSION};

impl Bank<'_> {
    // An oscillator of these hertz, by its ON.
    #[tactic(auto, using(crate::proofs::Chains::chains))]
    fn fixed(&self, on: usize, hertz: u64) -> Option<Exact>
        ensures { result ≡ reading_of (from_oscillator (switched (word_of self.now.words.now on) (runs hertz))) }
    {
        if self.word(on) == 0 {
            return None;
        }
        Some(Exact {
            numerator: hertz,
            denominator: 1,
        })
    }

    // 64,000,000 Hz / HSIDIV for HSIDIV 1, 2, 4, 8; none by any other.
    #[tactic(auto, using(crate::proofs::Chains::chains), unfolding(rules::specs::Manual::Tree::hsi_of))]
    pub fn hsi(&self) -> Option<Exact>
        ensures { (fed : Oscillator) → result ≡ reading_of (from_oscillator (Tree.hsi_of self.now.words.now fed)) }
    {
        match self.word(HSIDIV) {
            1 => self.fixed(HSION, 64_000_000),
            2 => self.fixed(HSION, 32_000_000),
            4 => self.fixed(HSION, 16_000_000),
            8 => self.fixed(HSION, 8_000_000),
            _ => None,
        }
    }

    // 4,000,000 Hz.
    #[tactic(auto, unfolding(rules::specs::Manual::Tree::csi_of))]
    pub fn csi(&self) -> Option<Exact>
        ensures { (fed : Oscillator) → result ≡ reading_of (from_oscillator (Tree.csi_of self.now.words.now fed)) }
    {
        self.fixed(CSION, 4_000_000)
    }

    // 48,000,000 Hz.
    #[tactic(auto, unfolding(rules::specs::Manual::Tree::hsi48_of))]
    pub fn hsi48(&self) -> Option<Exact>
        ensures { (fed : Oscillator) → result ≡ reading_of (from_oscillator (Tree.hsi48_of self.now.words.now fed)) }
    {
        self.fixed(HSI48ON, 48_000_000)
    }

    // 32,000 Hz.
    #[tactic(auto, unfolding(rules::specs::Manual::Tree::lsi_of))]
    pub fn lsi(&self) -> Option<Exact>
        ensures { (fed : Oscillator) → result ≡ reading_of (from_oscillator (Tree.lsi_of self.now.words.now fed)) }
    {
        self.fixed(LSION, 32_000)
    }

    // HSE as fed.
    #[tactic(auto, using(crate::proofs::Chains::chains), unfolding(rules::specs::Manual::Tree::hse_of))]
    pub fn hse(&self) -> Option<Exact>
        ensures { result ≡ reading_of (from_oscillator (Tree.hse_of self.now.words.now (fed_by self.now.hse))) }
    {
        self.fixed(HSEON, self.hse? as u64)
    }
}
