// From a typed request and the chip's state to one complete plan or one refusal: 1, or one of 3 to 23. rcc.rs (freeze).
#![tactic(auto)]

ghost use Rattle.std.specs.Prelude.{◌≡◌, Ok};
ghost use Rattle.rules.specs.Document01.Plan as Rules;

use settled::Settled;
use types::{ChipState, Hsidiv, PLL1, PLL2, PLL3, Plan, PllSettings, Refusal, Request};

mod assemble;
mod codes;
mod plls;
mod settled;

// A typed request. One for two PLLs with anything in its third part is refusal 1, as its bytes would be.
#[tactic(auto, unfolding(rules::specs::Document01::Plan::answer_typed))]
pub fn answer_to(q: &Request, c: &ChipState) -> Result<Plan, Refusal>
    ensures { result ≡ Rules.answer_typed q.now c.now }
{
    if !(c.three | hertz::is_no_part(q.plls[2])) {
        return Err(Refusal::OutsideCodes);
    }
    chosen(q, c)
}

// Steps 1 to 3, then what follows them. Each function here has few refusals of its own: behind many the compiler holds a call for one that seldom
// comes, and copies a plan once more.
#[tactic(auto, unfolding(rules::specs::Document01::Plan::chosen_plan, rules::specs::Document01::Plan::plls_of))]
fn chosen(q: &Request, c: &ChipState) -> Result<Plan, Refusal>
    ensures { result ≡ Rules.chosen_plan q.now c.now }
{
    let s = config::configure(q)?;
    Settled { q, c, s: &s }.planned()
}

impl Settled<'_> {
    // The PLLs, then what follows them.
    #[tactic(auto, unfolding(rules::specs::Document01::Plan::chosen_plan, rules::specs::Document01::Plan::plls_of))]
    fn planned(&self) -> Result<Plan, Refusal>
        ensures { result ≡ Rules.chosen_plan self.now.q.now self.now.c.now }
    {
        let pll1 = self.pll(PLL1)?;
        let pll2 = self.pll(PLL2)?;
        let pll3 = self.pll(PLL3)?;
        self.rest(&[pll1, pll2, pll3])
    }

    // Refusals 16 and 17, then the clocks behind the PLLs.
    #[tactic(auto, unfolding(rules::specs::Document01::Plan::chosen_plan))]
    fn rest(&self, plls: &[Option<PllSettings>; 3]) -> Result<Plan, Refusal>
        requires { Rules.plls_of self.now.q.now self.now.c.now ≡ Ok plls.now }
        ensures { result ≡ Rules.chosen_plan self.now.q.now self.now.c.now }
    {
        hsi_ready(self.c)?;
        let system = core_clocks::system_from(self.s.needs, self.s.source, plls);
        let buses = core_clocks::bus_clocks(self.q, system)?;
        let mcos = core_clocks::mco_clocks(self.q, plls, system)?;
        Ok(self.accepted(system, plls, buses, mcos))
    }
}

// Refusals 16 and 17.
fn hsi_ready(c: &ChipState) -> Result<(), Refusal>
    ensures { result ≡ Rules.hsi_ready c.now }
{
    if !c.hsion {
        return Err(Refusal::HsiOff);
    }
    if !matches!(c.hsidiv, Hsidiv::Div2) {
        return Err(Refusal::HsidivNot2);
    }
    Ok(())
}
