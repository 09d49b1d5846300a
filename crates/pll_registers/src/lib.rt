// The registers of each PLL as words, for a request: document 02, Item 1. docs/CODES.md, PLL registers as words.
#![tactic(auto)]

ghost use Rattle.std.specs.Prelude.{◌≡◌, ◌<◌, length};
ghost use Rattle.rules.specs.Document01.Result.{without_value};
ghost use Rattle.rules.specs.Words.{stored_from};
ghost use Rattle.pll_registers.specs.Fields.{fields_of};
ghost use Rattle.pll_registers.specs.Registers.{packed};
ghost use Rattle.pll_registers.specs.Calls.{plan_registers, registers_asked, registers_by};
ghost use Rattle.pll_registers.specs.Stated.{AsBank};

use types::{Chip, Plan, PllSettings, Refusal};

mod pack;

// What CFGR, DIVR and FRACR hold of one PLL: N and the dividers as they multiply and divide. A divider of 0 is an output that is not enabled.
#[derive(Clone, Copy)]
pub struct PllFields {
    pub src: u32,
    pub rge: u32,
    pub fracen: u32,
    pub vcosel: u32,
    pub m: u32,
    pub n: u32,
    pub fracn: u32,
    pub p: u32,
    pub q: u32,
    pub r: u32,
}

// The fields of one PLL of a plan, by its PLLSRC: all but the source are 0 of an idle one.
pub fn fields(src: u32, x: &Option<PllSettings>) -> PllFields
    ensures { result ≡ fields_of src x.now }
{
    let s = pll_words::setting_words(x);
    let o = pll_words::outputs_words(x);
    PllFields {
        src,
        rge: s[4],
        fracen: s[6],
        vcosel: s[0],
        m: s[2],
        n: s[5],
        fracn: s[7],
        p: o[1],
        q: o[4],
        r: o[7],
    }
}

// CFGR, DIVR and FRACR of one PLL, from a place on.
fn store_pll(src: u32, x: &Option<PllSettings>, at: usize, out: &mut [u32])
    requires { at < 9 }
    ensures { out.new ≡ stored_from out.old at (packed (fields_of src x.now)) }
{
    let words = pack::pack(fields(src, x));
    fields::put(at, words[0], out);
    fields::put(at + 1, words[1], out);
    fields::put(at + 2, words[2], out)
}

// Of each PLL of a plan, in PLL order: six words, or nine where there is a third PLL.
pub fn store_registers(p: &Plan, out: &mut [u32])
    ensures { out.new ≡ stored_from out.old 0 (plan_registers p.now) }
{
    let src = p.selectors.src;
    store_pll(src, &p.plls[0], 0, out);
    store_pll(src, &p.plls[1], 3, out);
    if p.three {
        store_pll(src, &p.plls[2], 6, out);
    }
}

// Words lent for the registers: three for each of three PLLs.
const WORDS: usize = 9;

// The words of a request, beside a chip's numbers: nine words are lent, of which a chip with two PLLs keeps the last three. A refusal keeps all.
#[tactic(auto, unfolding(crate::specs::Calls::registers_asked))]
pub fn plan_registers(request: &[u8], chip: Chip, words: &mut [u32]) -> Result<(), Refusal>
    ensures answer { result ≡ without_value (registers_asked request.now chip (length words.old)) }
    ensures words { words.new ≡ registers_by (registers_asked request.now chip (length words.old)) words.old }
    ensures bank { AsBank request.now chip result words.new }
{
    if words.len() != WORDS {
        return Err(Refusal::OutsideCodes);
    }
    let plan = rcc::plan(request, chip)?;
    store_registers(&plan, words);
    Ok(())
}
