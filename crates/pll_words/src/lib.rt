// The settings of one PLL as words, and storing them: docs/CODES.md, A PLL as words.
#![tactic(auto)]

ghost use Rattle.std.specs.Prelude.{◌≡◌, ◌++◌};
ghost use Rattle.pll_words.specs.PllWords.{setting_words, on_of, divider_of, hertz_of, outputs_words, pll_stored};

use types::{PllOutput, PllSettings};

// What is chosen for the PLL.
pub fn setting_words(x: &Option<PllSettings>) -> [u32; 9]
    ensures { result ≡ setting_words x.now }
{
    match x {
        None => [0; 9],
        Some(s) => [
            s.vcosel,
            s.target,
            s.m,
            s.reference,
            s.rge,
            s.n,
            s.fraction.is_some() as u32,
            s.fraction.unwrap_or(0),
            s.vco,
        ],
    }
}

// An output's three words.
#[derive(Clone, Copy)]
struct Words {
    on: u32,
    divider: u32,
    hertz: u32,
}

fn output(o: Option<PllOutput>) -> Words
    ensures on { result.on ≡ on_of o }
    ensures divider { result.divider ≡ divider_of o }
    ensures hertz { result.hertz ≡ hertz_of o }
{
    match o {
        None => Words {
            on: 0,
            divider: 0,
            hertz: 0,
        },
        Some(x) => Words {
            on: 1,
            divider: x.divider,
            hertz: x.clock,
        },
    }
}

// P, Q and R.
pub fn outputs_words(x: &Option<PllSettings>) -> [u32; 9]
    ensures { result ≡ outputs_words x.now }
{
    match x {
        None => [0; 9],
        Some(s) => {
            let p = output(s.p);
            let q = output(s.q);
            let r = output(s.r);
            [
                p.on, p.divider, p.hertz, q.on, q.divider, q.hertz, r.on, r.divider, r.hertz,
            ]
        }
    }
}

// Eighteen words: the settings, then the outputs.
pub fn store_pll(x: &Option<PllSettings>, out: &mut [u32])
    ensures { out.new ≡ pll_stored x.now out.old }
{
    words::store_words(out, 0, &setting_words(x));
    words::store_words(out, 9, &outputs_words(x))
}

// The same eighteen words by themselves.
#[tactic(auto, using(crate::proofs::Stated::one_behind_the_other))]
pub fn all_words(x: &Option<PllSettings>) -> [u32; 18]
    ensures { result ≡ setting_words x.now ++ outputs_words x.now }
{
    let mut words = [0; 18];
    store_pll(x, &mut words);
    words
}
