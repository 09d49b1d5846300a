// What the PLLs add to the list: what sets each up, its SRC, and its start.
ghost use Rattle.std.specs.Prelude.{◌≡◌, ℕ, length};
ghost use Rattle.rules.specs.Document01.Entries.{base_entries, fraction_entries, output_entries, output_start, setting_entries, setup_entries, setups, source_entries, start_entries, starts};
ghost use Rattle.entries.specs.Sink.{told};

use crate::sink::Sink;
use fields::*;
use types::{PLL1, PLL2, PLL3, PllNumber, PllOutput, PllSettings};

// Each PLL: VCOSEL; RGE; M; N − 1.
fn base<S: Sink>(pll: PllNumber, x: &PllSettings, s: &mut S, room: &mut [u32])
    ensures { (s.new, room.new) ≡ told S.after (base_entries pll.k x.now) (s.old, room.old) }
{
    let at = of_pll(pll);
    s.set(at + VCOSEL, x.vcosel, room);
    s.set(at + RGE, x.rge, room);
    s.set(at + M, x.m, room);
    s.set(at + N, less_one(x.n), room)
}

// If Fractional FRACN, FRACEN 0, FRACEN 1.
fn fraction<S: Sink>(pll: PllNumber, f: Option<u32>, s: &mut S, room: &mut [u32])
    ensures { (s.new, room.new) ≡ told S.after (fraction_entries pll.k f) (s.old, room.old) }
{
    if let Some(n) = f {
        let at = of_pll(pll);
        s.set(at + FRACN, n, room);
        s.set(at + FRACEN, 0, room);
        s.set(at + FRACEN, 1, room)
    }
}

// For P, Q, R divider − 1 then enable, or disable alone.
fn output<S: Sink>(divider: usize, enable: usize, o: Option<PllOutput>, s: &mut S, room: &mut [u32])
    ensures { (s.new, room.new) ≡ told S.after (output_entries divider enable o) (s.old, room.old) }
{
    match o {
        None => s.set(enable, 0, room),
        Some(out) => {
            s.set(divider, less_one(out.divider), room);
            s.set(enable, 1, room)
        }
    }
}

// What sets a PLL up: its base, the fraction, and P, Q, R.
#[tactic(auto, using(crate::proofs::Told::told_append), unfolding(rules::specs::Document01::Entries::setting_entries))]
fn setting<S: Sink>(pll: PllNumber, x: &PllSettings, s: &mut S, room: &mut [u32])
    ensures { (s.new, room.new) ≡ told S.after (setting_entries pll.k x.now) (s.old, room.old) }
{
    let at = of_pll(pll);
    base(pll, x, s, room);
    fraction(pll, x.fraction, s, room);
    output(at + P, at + PEN, x.p, s, room);
    output(at + Q, at + QEN, x.q, s, room);
    output(at + R, at + REN, x.r, s, room)
}

// How many entries set a PLL up: seven, three more for a fraction, and one more for each output.
#[tactic(auto, using(crate::proofs::Counted::setting_is))]
fn setting_count(x: &PllSettings) -> usize
    ensures { (k : ℕ) → result ≡ length (setting_entries k x.now) }
{
    let fraction = x.fraction.is_some() as usize;
    let outputs = x.p.is_some() as usize + x.q.is_some() as usize + x.r.is_some() as usize;
    7 + 3 * fraction + outputs
}

// A PLL that is skipped adds no entry but its SRC.
#[tactic(auto, using(crate::proofs::Told::told_passed))]
fn set_up<S: Sink>(pll: PllNumber, x: &Option<PllSettings>, s: &mut S, room: &mut [u32])
    ensures { (s.new, room.new) ≡ told S.after (setup_entries pll.k x.now) (s.old, room.old) }
{
    if let Some(settings) = x {
        if !s.passes(setting_count(settings)) {
            setting(pll, settings, s, room)
        }
    }
}

// Each PLL, in PLL order.
#[tactic(auto, using(crate::proofs::Told::told_append))]
pub fn set_up_all<S: Sink>(plls: &[Option<PllSettings>; 3], s: &mut S, room: &mut [u32])
    ensures { (s.new, room.new) ≡ told S.after (setups plls.now) (s.old, room.old) }
{
    set_up(PLL1, &plls[0], s, room);
    set_up(PLL2, &plls[1], s, room);
    set_up(PLL3, &plls[2], s, room)
}

// Each PLL's SRC, all of them.
pub fn sources<S: Sink>(three: bool, src: u32, s: &mut S, room: &mut [u32])
    ensures { (s.new, room.new) ≡ told S.after (source_entries three src) (s.old, room.old) }
{
    s.set(of_pll(PLL1) + SRC, src, room);
    s.set(of_pll(PLL2) + SRC, src, room);
    if three {
        s.set(of_pll(PLL3) + SRC, src, room);
    }
}

// A PLL is started when it has P: ON, wait RDY.
fn start_output<S: Sink>(pll: PllNumber, p: Option<PllOutput>, s: &mut S, room: &mut [u32])
    ensures { (s.new, room.new) ≡ told S.after (output_start pll.k p) (s.old, room.old) }
{
    if p.is_some() {
        let at = of_pll(pll);
        s.set(at + ON, 1, room);
        s.wait(at + RDY, 1, room)
    }
}

// A PLL, where it runs.
fn start<S: Sink>(pll: PllNumber, x: &Option<PllSettings>, s: &mut S, room: &mut [u32])
    ensures { (s.new, room.new) ≡ told S.after (start_entries pll.k x.now) (s.old, room.old) }
{
    if let Some(settings) = x {
        start_output(pll, settings.p, s, room)
    }
}

// The starts, in PLL order.
#[tactic(auto, using(crate::proofs::Told::told_append))]
pub fn start_all<S: Sink>(plls: &[Option<PllSettings>; 3], s: &mut S, room: &mut [u32])
    ensures { (s.new, room.new) ≡ told S.after (starts plls.now) (s.old, room.old) }
{
    start(PLL1, &plls[0], s, room);
    start(PLL2, &plls[1], s, room);
    start(PLL3, &plls[2], s, room)
}
