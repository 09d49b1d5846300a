// The system clock, the buses, the timers and the peripheral clock.
ghost use Rattle.std.specs.Prelude.{◌≡◌};
ghost use Rattle.rules.specs.Document01.Fields as Fields;
ghost use Rattle.rules.specs.Manual.Tree as Tree;
ghost use Rattle.rules.specs.Manual.Tree.{Chain, word as word_of};
ghost use Rattle.rules.specs.Manual.Tree.{fed_by};
ghost use Rattle.exact.specs.Exact.{reading_of};

use crate::bank::Bank;
use crate::{Exact, steps};
use fields::{CKPERSEL, HPRE, P, SW, TIMPRE};
use types::PLL1;

impl Bank<'_> {
    // SW: 0 HSI, 1 CSI, 2 HSE, 3 PLL1 P.
    #[tactic(auto, using(crate::proofs::Chains::chains), unfolding(rules::specs::Manual::Tree::sys_of))]
    pub fn sys(&self) -> Option<Exact>
        ensures { result ≡ reading_of (Tree.sys_of self.now.words.now (fed_by self.now.hse)) }
    {
        match self.word(SW) {
            0 => self.hsi(),
            1 => self.csi(),
            2 => self.hse(),
            3 => self.output(PLL1, P),
            _ => None,
        }
    }

    // A clock divided by a word of the bank; none by 0.
    pub fn divided(&self, clock: Option<Exact>, f: usize) -> Option<Exact>
        ensures { (c : Chain) → clock ≡ reading_of c → result ≡ reading_of (Tree.over c (word_of self.now.words.now f)) }
    {
        steps::over(clock, self.word(f) as u64)
    }

    // AHB = system / HPRE.
    #[tactic(auto, using(crate::proofs::Chains::chains), unfolding(rules::specs::Manual::Tree::ahb_of))]
    pub fn ahb(&self) -> Option<Exact>
        ensures { result ≡ reading_of (Tree.ahb_of self.now.words.now (fed_by self.now.hse)) }
    {
        self.divided(self.sys(), HPRE)
    }

    // The timers on the APB of this PPRE.
    pub fn timer(&self, ppre: usize) -> Option<Exact>
        ensures { result ≡ reading_of (Tree.timer_by (word_of self.now.words.now Fields.TIMPRE) (word_of self.now.words.now ppre) (Tree.ahb_of self.now.words.now (fed_by self.now.hse))) }
    {
        let divisor = steps::timer_divisor(self.word(TIMPRE), self.word(ppre))?;
        steps::over(self.ahb(), divisor as u64)
    }

    // CKPERSEL: 0 HSI, 1 CSI, 2 HSE.
    #[tactic(auto, using(crate::proofs::Chains::chains), unfolding(rules::specs::Manual::Tree::per_of))]
    pub fn per(&self) -> Option<Exact>
        ensures { result ≡ reading_of (Tree.per_of self.now.words.now (fed_by self.now.hse)) }
    {
        match self.word(CKPERSEL) {
            0 => self.hsi(),
            1 => self.csi(),
            2 => self.hse(),
            _ => None,
        }
    }
}
