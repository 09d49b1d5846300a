// Lines of text: templates with their numbers, written to standard output.
#![tactic(auto)]

pub fn say(text: &[u8]) {
    io::write_all(1, text);
}

// A template with its numbers, over a table of names.
pub fn line(form: &[u8], names: &[&[u8]], numbers: &[u64]) {
    let mut out = [0u8; 512];
    let n = template::fill(form, names, numbers, &mut out);
    io::write_all(1, &out[..n]);
}

// A text and a number behind it.
pub fn named(text: &[u8], n: u32) {
    say(text);
    line(b"{0}", &[], &[n as u64]);
}

// The names of the clocks, by their numbers; then the VCOs, nothing, and the VCO's ranges.
pub const CLOCKS: [&[u8]; 32] = [
    b"sys", b"ahb", b"apb1", b"apb2", b"apb3", b"timx", b"timy", b"per", b"hsi", b"csi", b"hsi48",
    b"lsi", b"hse", b"lse", b"audio", b"mco1", b"mco2", b"pll1.p", b"pll1.q", b"pll1.r", b"pll2.p",
    b"pll2.q", b"pll2.r", b"pll3.p", b"pll3.q", b"pll3.r", b"vco1", b"vco2", b"vco3", b"", b"wide",
    b"medium",
];

// The names of the bank's words, from 1; then the kinds of entries.
pub const FIELDS: [&[u8]; 86] = [
    b"-",
    b"PLL1.VCOSEL",
    b"PLL1.RGE",
    b"PLL1.M",
    b"PLL1.N",
    b"PLL1.FRACN",
    b"PLL1.FRACEN",
    b"PLL1.P",
    b"PLL1.PEN",
    b"PLL1.Q",
    b"PLL1.QEN",
    b"PLL1.R",
    b"PLL1.REN",
    b"PLL1.SRC",
    b"PLL1.ON",
    b"PLL1.RDY",
    b"PLL2.VCOSEL",
    b"PLL2.RGE",
    b"PLL2.M",
    b"PLL2.N",
    b"PLL2.FRACN",
    b"PLL2.FRACEN",
    b"PLL2.P",
    b"PLL2.PEN",
    b"PLL2.Q",
    b"PLL2.QEN",
    b"PLL2.R",
    b"PLL2.REN",
    b"PLL2.SRC",
    b"PLL2.ON",
    b"PLL2.RDY",
    b"PLL3.VCOSEL",
    b"PLL3.RGE",
    b"PLL3.M",
    b"PLL3.N",
    b"PLL3.FRACN",
    b"PLL3.FRACEN",
    b"PLL3.P",
    b"PLL3.PEN",
    b"PLL3.Q",
    b"PLL3.QEN",
    b"PLL3.R",
    b"PLL3.REN",
    b"PLL3.SRC",
    b"PLL3.ON",
    b"PLL3.RDY",
    b"LSION",
    b"LSIRDY",
    b"WRHIGHFREQ",
    b"LATENCY",
    b"PRFTEN",
    b"CSION",
    b"CSIRDY",
    b"HSI48ON",
    b"HSI48RDY",
    b"MCO1SEL",
    b"MCO1PRE",
    b"MCO2SEL",
    b"MCO2PRE",
    b"HSEON",
    b"HSEBYP",
    b"HSERDY",
    b"HPRE",
    b"PPRE1",
    b"PPRE2",
    b"PPRE3",
    b"CKPERSEL",
    b"TIMPRE",
    b"SW",
    b"SWS",
    b"SBSEN",
    b"EN1",
    b"CS1",
    b"EN2",
    b"CS2",
    b"RDY1",
    b"RDY2",
    b"HSION",
    b"HSIDIV",
    b"VOS",
    b"ACTVOS",
    b"ACTVOSRDY",
    b"VOSRDY",
    b"set",
    b"wait",
    b"check",
];
