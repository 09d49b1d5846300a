// One PLL, on numbers.
ghost use Rattle.std.specs.Prelude.{◌≡◌, length};
ghost use Rattle.request.specs.Request.{part_of};
ghost use Rattle.rules.specs.Document01.Refusals.{code_of};
ghost use Rattle.clock_api.specs.OnePll.{pll_for, pll_room};

use types::{PllSettings, Refusal};

// Words of a PLL's settings.
const WORDS: usize = 18;

// What is chosen for one PLL, in 18 words. The part is its 16 bytes of a request; odd is 1 where P may divide by an odd number.
#[tactic(auto, unfolding(crate::specs::OnePll::pll_for))]
pub fn clock_pll(odd: u32, source: u32, part: &[u8], out: &mut [u32]) -> u32
    ensures code { result ≡ code_of (pll_for odd source (part_of part.now) (length out.old)) }
    ensures out { out.new ≡ pll_room (pll_for odd source (part_of part.now) (length out.old)) out.old }
{
    if out.len() != WORDS {
        return 1;
    }
    if 1 < odd {
        return 1;
    }
    match request::read_part(part) {
        Err(n) => refusal::number_of(n),
        Ok(a) => stored(pll::plan_pll(odd == 1, source, a), out),
    }
}

fn stored(x: Result<Option<PllSettings>, Refusal>, out: &mut [u32]) -> u32
    ensures code { result ≡ code_of x }
    ensures out { out.new ≡ pll_room x out.old }
{
    match x {
        Err(n) => refusal::number_of(n),
        Ok(p) => {
            pll_words::store_pll(&p, out);
            0
        }
    }
}
