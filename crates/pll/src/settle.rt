// The settings of a PLL once its target and M are chosen, with refusals 12 to 15.
ghost use Rattle.std.specs.Prelude.{◌≡◌, ◌*◌, ◌/◌, ◌<◌, ◌≤◌};
ghost use Rattle.rules.specs.Document01.OnePll as Rules;
ghost use Rattle.pll.specs.Settle.{HasDivider, Settles, multiplied, settled_for, Placed, placed, divider_in};

use crate::asked::Asked;
use types::{PllOutput, PllRequest, PllSettings, Refusal, Strategy};

// The numbers chosen for a PLL.
#[derive(Clone, Copy)]
pub struct Chosen {
    pub vcosel: u32,
    pub target: u32,
    pub m: u32,
    pub reference: u32,
    pub n: u32,
    pub fraction: Option<u32>,
    pub vco: u32,
}

// The fraction, if Fractional, and the VCO.
#[derive(Clone, Copy)]
pub struct Multiplied {
    pub fraction: Option<u32>,
    pub vco: u32,
}

// The first requested of P, Q, R. The rules have 0 where none is requested; settle asks only where one is.
fn first_of(a: PllRequest) -> u32
    ensures { result ≡ Rules.first_of a }
{
    a.p.unwrap_or(a.q.unwrap_or(a.r.unwrap_or(0)))
}

// FRACN, if Fractional, and the VCO.
fn multiply(
    strategy: Strategy,
    reference: u32,
    n: u32,
    target: u32,
    output: u32,
) -> Result<Multiplied, Refusal>
    requires { (reference * n < 4294967296) × (1 ≤ output) }
    ensures { result ≡ multiplied strategy reference n target output }
{
    match strategy {
        Strategy::Integer => Ok(Multiplied {
            fraction: None,
            vco: reference * n,
        }),
        Strategy::Fractional => {
            let f = fracn::fracn_for(reference, n, target / output, output).ok_or(
                Refusal::FracnOutside,
            )?;
            Ok(Multiplied {
                fraction: Some(f as u32),
                vco: fracn::calc_vco_ck(reference, n, f),
            })
        }
    }
}

// The largest divider of P.
const P_MOST: u32 = 128;

impl Asked {
    // Refusals 12 and 13: N, FRACN and the VCO.
    #[tactic(auto, using(crate::proofs::Settled::fracn_in), unfolding(crate::specs::Settle::settled_for, rules::specs::Document01::OnePll::settled))]
    pub fn settle(self, vcosel: u32, target: u32, m: u32) -> Result<PllSettings, Refusal>
        requires { Settles self target m }
        ensures { result ≡ settled_for self vcosel target m }
    {
        let reference = self.source / m;
        let n = target / reference;
        if n < 4 {
            return Err(Refusal::NOutside);
        }
        if 512 < n {
            return Err(Refusal::NOutside);
        }
        let a = self.request;
        let by = multiply(a.strategy, reference, n, target, first_of(a))?;
        self.place(Chosen {
            vcosel,
            target,
            m,
            reference,
            n,
            fraction: by.fraction,
            vco: by.vco,
        })
    }

    // Refusals 14 and 15, and the settings.
    #[tactic(auto, unfolding(crate::specs::Settle::placed))]
    fn place(self, c: Chosen) -> Result<PllSettings, Refusal>
        requires { Placed self c }
        ensures { result ≡ placed self c }
    {
        let first = output_of(c.target, c.vco, self.request.p);
        let d = divider_p(first);
        if P_MOST < d {
            return Err(Refusal::PDividerAbove128);
        }
        if !self.odd {
            if d % 2 == 1 {
                return Err(Refusal::PDividerOdd);
            }
        }
        Ok(PllSettings {
            vcosel: c.vcosel,
            target: c.target,
            m: c.m,
            reference: c.reference,
            rge: rge_of(c.reference),
            n: c.n,
            fraction: c.fraction,
            vco: c.vco,
            p: first,
            q: output_of(c.target, c.vco, self.request.q),
            r: output_of(c.target, c.vco, self.request.r),
        })
    }
}

// P's divider; an unset P has none, and 2 stands for it.
fn divider_p(p: Option<PllOutput>) -> u32
    ensures { result ≡ divider_in p }
{
    p.map_or(2, |o| o.divider)
}

// RGE, by the reference in MHz: 1, 2, 4, 8.
fn rge_of(reference: u32) -> u32
    ensures { result ≡ Rules.rge_of reference }
{
    (2_000_000 <= reference) as u32
        + (4_000_000 <= reference) as u32
        + (8_000_000 <= reference) as u32
}

// An output's divider and hertz.
fn output_of(target: u32, vco: u32, h: Option<u32>) -> Option<PllOutput>
    requires { HasDivider target h }
    ensures { result ≡ Rules.output_of target vco h }
{
    let divider = target / h?;
    Some(PllOutput {
        divider,
        clock: vco / divider,
    })
}
