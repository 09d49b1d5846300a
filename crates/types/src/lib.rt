// What a request, the chip's state, a plan, a register entry and a refusal are. Types only, and the codes of docs/CODES.md: what is right is said in
// crates/rules/specs. A frequency is a number of hertz, and one that may be unset an Option of it, as in the Rust.
#![tactic(auto)]

ghost use Rattle.std.specs.Prelude.{◌<◌};

mod codes;

// A PLL of the three, by its number from 0: PLL1 is 0.
#[derive(Clone, Copy)]
pub struct PllNumber {
    pub k: usize,
    ghost of_three: { k < 3 },
}

pub const PLL1: PllNumber = PllNumber { k: 0 };

pub const PLL2: PllNumber = PllNumber { k: 1 };

pub const PLL3: PllNumber = PllNumber { k: 2 };

#[derive(Clone, Copy, Default)]
pub enum Strategy {
    #[default]
    Integer,
    Fractional,
}

#[derive(Clone, Copy, PartialEq, Eq)]
pub enum Mco1Source {
    Hsi,
    Lse,
    Hse,
    Pll1Q,
    Hsi48,
}

#[derive(Clone, Copy, PartialEq, Eq)]
pub enum Mco2Source {
    Sysclk,
    Pll2P,
    Hse,
    Pll1P,
    Csi,
    Lsi,
}

// The default is a part that says nothing.
#[derive(Clone, Copy, Default)]
pub struct PllRequest {
    pub strategy: Strategy,
    pub p: Option<u32>,
    pub q: Option<u32>,
    pub r: Option<u32>,
}

// The PLLs stand by their number: PLL1 first. On a chip with two PLLs the third is not looked at.
#[derive(Clone, Copy)]
pub struct Request {
    pub hse: Option<u32>,
    pub lse: Option<u32>,
    pub audio: Option<u32>,
    pub system: Option<u32>,
    pub peripheral: Option<u32>,
    pub ahb: Option<u32>,
    pub apb1: Option<u32>,
    pub apb2: Option<u32>,
    pub apb3: Option<u32>,
    pub bypass: bool,
    pub mco1source: Mco1Source,
    pub mco1: Option<u32>,
    pub mco2source: Mco2Source,
    pub mco2: Option<u32>,
    pub plls: [PllRequest; 3],
}

#[derive(Clone, Copy)]
pub enum Scale {
    Scale0,
    Scale1,
    Scale2,
    Scale3,
}

// HSIDIV: what the chip divides HSI by.
#[derive(Clone, Copy)]
pub enum Hsidiv {
    Div1,
    Div2,
    Div4,
    Div8,
}

// The chip as it is handed in: the PLL count, for each PLL by its number whether P may divide by an odd number (0 or 1), the voltage scale's
// number, and HSION and HSIDIV as read. Any number can stand in any place; refusal 1 judges them.
#[derive(Clone, Copy)]
pub struct Chip {
    pub plls: u32,
    pub odd: [u32; 3],
    pub scale: u32,
    pub hsion: u32,
    pub hsidiv: u32,
}

// The chip as the rules see it: whether there are three PLLs, the permissions by PLL number, the scale, HSION and HSIDIV.
#[derive(Clone, Copy)]
pub struct ChipState {
    pub three: bool,
    pub odd: [bool; 3],
    pub scale: Scale,
    pub hsion: bool,
    pub hsidiv: Hsidiv,
}

// A request, and the chip that it is asked of.
#[derive(Clone, Copy)]
pub struct Asked {
    pub request: Request,
    pub chip: ChipState,
}

// The listed refusals, in the order of their numbers, from 1. Crate refusal promises that they are those of document 01.
#[derive(Clone, Copy, PartialEq, Eq)]
pub enum Refusal {
    OutsideCodes = 1,
    BankLength,
    AboveLimit,
    McoHseUnstated,
    Pll1PUnlikeSystem,
    SourceZero,
    OutputZero,
    OutputsTooFarApart,
    OutputTooHigh,
    TargetOutside,
    NoM,
    NOutside,
    FracnOutside,
    PDividerAbove128,
    PDividerOdd,
    HsiOff,
    HsidivNot2,
    BusZero,
    AhbZero,
    Mco1Lse,
    McoNoOutput,
    McoZero,
    McoRatio,
    CsiDown,
}

// A register entry: up to four fields with the values to set together, up to two to wait for, one to check, or one to read.
#[derive(Clone, Copy)]
pub enum Entry {
    Set(usize, u32),
    Set2(usize, u32, usize, u32),
    Set3(usize, u32, usize, u32, usize, u32),
    Set4(usize, u32, usize, u32, usize, u32, usize, u32),
    Wait(usize, u32),
    Wait2(usize, u32, usize, u32),
    Check(usize, u32),
    Read(usize),
}

// An output of a PLL that is on: its divider and its clock in hertz.
#[derive(Clone, Copy)]
pub struct PllOutput {
    pub divider: u32,
    pub clock: u32,
}

// What is chosen for a PLL that has an output requested. The fraction, FRACN, is added to N as FRACN / 8192: in Fractional strategy alone.
#[derive(Clone, Copy)]
pub struct PllSettings {
    pub vcosel: u32,
    pub target: u32,
    pub m: u32,
    pub reference: u32,
    pub rge: u32,
    pub n: u32,
    pub fraction: Option<u32>,
    pub vco: u32,
    pub p: Option<PllOutput>,
    pub q: Option<PllOutput>,
    pub r: Option<PllOutput>,
}

// A bus: its divisor and its clock in hertz.
#[derive(Clone, Copy)]
pub struct Bus {
    pub pre: u32,
    pub clock: u32,
}

// AHB and APB1 to 3.
#[derive(Clone, Copy)]
pub struct Buses {
    pub ahb: Bus,
    pub apb1: Bus,
    pub apb2: Bus,
    pub apb3: Bus,
}

// A clock output: its prescaler, and its clock where it has one.
#[derive(Clone, Copy)]
pub struct Mco {
    pub pre: u32,
    pub clock: Option<u32>,
}

#[derive(Clone, Copy)]
pub struct Mcos {
    pub mco1: Mco,
    pub mco2: Mco,
}

// Flash wait states: LATENCY, and WRHIGHFREQ's delay.
#[derive(Clone, Copy)]
pub struct Waits {
    pub latency: u32,
    pub delay: u32,
}

// A selector's code and its clock.
#[derive(Clone, Copy)]
pub struct Selected {
    pub sel: u32,
    pub clock: u32,
}

// The clocks reported in hertz, beside those of the buses, the clock outputs and the PLLs.
#[derive(Clone, Copy)]
pub struct Clocks {
    pub sys: u32,
    pub timx: u32,
    pub timy: u32,
    pub per: u32,
    pub hsi: u32,
    pub csi: u32,
    pub hsi48: u32,
    pub lsi: u32,
    pub hse: Option<u32>,
    pub lse: Option<u32>,
    pub audio: Option<u32>,
}

// The codes of the selectors: the PLLs' source, the system clock's, the peripheral clock's and the clock outputs'.
#[derive(Clone, Copy)]
pub struct Selectors {
    pub src: u32,
    pub sw: u32,
    pub ckpersel: u32,
    pub mco1sel: u32,
    pub mco2sel: u32,
}

// A whole plan, in parts. The PLLs stand by their number; one that is skipped has no settings.
#[derive(Clone, Copy)]
pub struct Plan {
    pub clocks: Clocks,
    pub buses: Buses,
    pub mcos: Mcos,
    pub waits: Waits,
    pub selectors: Selectors,
    pub bypass: bool,
    pub three: bool,
    pub plls: [Option<PllSettings>; 3],
}

// What a walk shows: an entry to carry out, the end of the list, or the refusal that ended it.
#[derive(Clone, Copy)]
pub enum Shown {
    Next(Entry),
    Finished,
    Stopped(Refusal),
}

// Why the chip was reset: reset_reason.rs, with its names.
#[derive(Clone, Copy)]
pub enum ResetReason {
    PowerOnReset,
    PinReset,
    SystemReset,
    WindowWatchdogReset,
    IndependentWatchdogReset,
    GenericWatchdogReset,
    IllegalStopEntryReset,
    Unknown(u32),
}

// The reason, and the word to write back, which clears the flags.
#[derive(Clone, Copy)]
pub struct Reset {
    pub reason: ResetReason,
    pub write_back: u32,
}
