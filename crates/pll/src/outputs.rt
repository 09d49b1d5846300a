// The outputs requested of a PLL: whether one is at 0 Hz, and the least and the largest as they count.
ghost use Rattle.std.specs.Prelude.{◌≡◌};
ghost use Rattle.rules.specs.Document01.OnePll as Rules;
ghost use Rattle.pll.specs.Spans.{span_of, with_hertz, with_output};

use crate::asked::Asked;
use types::PllRequest;

// Whether no output is requested at 0 Hz.
pub fn none_zero(a: PllRequest) -> bool
    ensures { result ≡ Rules.none_zero a }
{
    hertz::not_zero(a.p) && hertz::not_zero(a.q) && hertz::not_zero(a.r)
}

// The least and the largest output. A doubled P may pass 32 bits.
#[derive(Clone, Copy)]
pub struct Span {
    pub least: u64,
    pub most: u64,
}

// P counts doubled where odd P is forbidden.
fn counted(odd: bool, f: u32) -> u64
    ensures { result ≡ Rules.counted_p odd f }
{
    if odd {
        return f as u64;
    }
    (f as u64) * 2
}

// The outputs so far and one of so many hertz.
fn with_hertz(s: Option<Span>, f: u64) -> Span
    ensures { result ≡ with_hertz s f }
{
    match s {
        None => Span { least: f, most: f },
        Some(s) => Span {
            least: s.least.min(f),
            most: s.most.max(f),
        },
    }
}

// The outputs so far and the next, if it is requested.
fn with_output(s: Option<Span>, h: Option<u64>) -> Option<Span>
    ensures { result ≡ with_output s h }
{
    match h {
        None => s,
        Some(f) => Some(with_hertz(s, f)),
    }
}

impl Asked {
    // The least and the largest of P, Q, R, where one is requested.
    #[tactic(auto, unfolding(crate::specs::Spans::span_of))]
    pub fn span(self) -> Option<Span>
        ensures { result ≡ span_of self.odd self.request }
    {
        let p = self.request.p.map(|f| counted(self.odd, f));
        let q = self.request.q.map(|f| f as u64);
        let r = self.request.r.map(|f| f as u64);
        with_output(with_output(with_output(None, p), q), r)
    }
}
