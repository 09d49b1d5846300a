// Clocks written one behind the other, as far as there is room.
ghost use Rattle.std.specs.Prelude.{[], ◌∷◌};
ghost use Rattle.rules.specs.Words.{hertz_words, pll_words};
ghost use Rattle.room.specs.Write.{Wrote};

use hertz::clock_of;
use room::Room;
use types::PllSettings;

// A clock: whether it is there, and its hertz. Both are told without a branch, as a request's clocks are there or not in no order.
#[tactic(auto, using(room::proofs::Written::parts))]
#[inline(always)]
pub fn clock(out: &mut Room<u32>, h: Option<u32>)
    ensures { Wrote out.old out.new (hertz_words h []) }
{
    out.put(h.is_some() as u32);
    out.put(h.unwrap_or(0));
}

#[tactic(auto, using(room::proofs::Written::parts))]
#[inline(always)]
pub fn three(out: &mut Room<u32>, p: Option<u32>, q: Option<u32>, r: Option<u32>)
    ensures { Wrote out.old out.new (hertz_words p (hertz_words q (hertz_words r []))) }
{
    clock(out, p);
    clock(out, q);
    clock(out, r);
}

// P, Q and R of a PLL.
#[inline(always)]
pub fn pll(out: &mut Room<u32>, x: &Option<PllSettings>)
    ensures { Wrote out.old out.new (pll_words x.now []) }
{
    match x {
        None => three(out, None, None, None),
        Some(s) => three(out, clock_of(s.p), clock_of(s.q), clock_of(s.r)),
    }
}

// Four clocks that are always there.
#[tactic(auto, using(room::proofs::Written::parts))]
#[inline(always)]
pub fn four(out: &mut Room<u32>, a: u32, b: u32, c: u32, d: u32)
    ensures { Wrote out.old out.new (1 ∷ a ∷ 1 ∷ b ∷ 1 ∷ c ∷ 1 ∷ d ∷ []) }
{
    clock(out, Some(a));
    clock(out, Some(b));
    clock(out, Some(c));
    clock(out, Some(d));
}
