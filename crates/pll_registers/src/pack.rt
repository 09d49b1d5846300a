// The fields of one PLL packed into CFGR, DIVR and FRACR, by shifts and masks.
ghost use Rattle.std.specs.Prelude.{◌≡◌, ◌+◌, ◌*◌, ◌^◌, ◌≤◌, ◌<◌};
ghost use Rattle.pll_registers.specs.Registers.{placed, cfgr_of, divr_of, fracr_of, packed};

use crate::PllFields;
use fields::less_one;

// A field of so many bits, from a bit on, above the bits that are there.
#[tactic(auto, using(crate::proofs::Placing::puts, crate::proofs::Placing::put_ends))]
fn put(below: u32, v: u32, at: u32, width: u32) -> u32
    requires { (below < 2 ^ at) × (at + width < 32) }
    ensures bits { result ≡ below + placed at width v }
    ensures end { result < 2 ^ (at + width) }
{
    below | (v & ((1 << width) - 1)) << at
}

// RCC_PLLxCFGR.
#[tactic(auto, unfolding(crate::specs::Registers::cfgr_of))]
fn cfgr(f: PllFields) -> u32
    ensures { result ≡ cfgr_of f }
{
    let a = put(0, f.src, 0, 2);
    let b = put(a, f.rge, 2, 2);
    let c = put(b, f.fracen, 4, 1);
    let d = put(c, f.vcosel, 5, 1);
    let e = put(d, f.m, 8, 6);
    let p = put(e, u32::from(0 < f.p), 16, 1);
    let q = put(p, u32::from(0 < f.q), 17, 1);
    put(q, u32::from(0 < f.r), 18, 1)
}

// RCC_PLLxDIVR.
#[tactic(auto, unfolding(crate::specs::Registers::divr_of))]
fn divr(f: PllFields) -> u32
    ensures { result ≡ divr_of f }
{
    let n = put(0, less_one(f.n), 0, 9);
    let p = put(n, less_one(f.p), 9, 7);
    let q = put(p, less_one(f.q), 16, 7);
    put(q, less_one(f.r), 24, 7)
}

// RCC_PLLxFRACR.
#[tactic(auto, unfolding(crate::specs::Registers::fracr_of))]
fn fracr(f: PllFields) -> u32
    ensures { result ≡ fracr_of f }
{
    put(0, f.fracn, 3, 13)
}

// The three words of one PLL.
pub fn pack(f: PllFields) -> [u32; 3]
    ensures { result ≡ packed f }
{
    [cfgr(f), divr(f), fracr(f)]
}
