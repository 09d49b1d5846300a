// The pages of docs/help, one for each refusal. scripts/make-help writes this file from them.
use print::say;

fn page_1() {
    say(
        b"# 1: a number is outside its codes
The chip's numbers or the bytes of the request are not in the form that the
planner reads.

About: `odd1`, `odd2`, `odd3`, `scale`, `hsion`, `hsidiv`; the request's bytes
Who can mend it: the firmware engineer, by the call

A request that gives it:

    scale=4

What to change: the chip's numbers are the PLL count, 2 or 3; `odd1`, `odd2`,
`odd3` and `hsion`, 0 or 1; `scale`, 0 to 3; `hsidiv`, 1, 2, 4 or 8.

    scale=3

In a call of the library these give it too: a request that is not 90 bytes
long with two PLLs or 106 with three, so a PLL3 part on a chip with two; an
unset clock whose four bytes are not 0; a bypass, strategy or set byte above
1; an MCO1 source above 4 or an MCO2 source above 5; a chip that is not 7
bytes, a report that is not 55 words, a list of another length.
docs/CODES.md has the whole form.
",
    );
}

fn page_2() {
    say(
        b"# 2: the bank is not 82 words
The bank call applies a plan to the caller's bank of register words, one word
for each field. The bank that was passed has another length.

About: `bank_length` of `clock_bank`; no word of a request
Who can mend it: the firmware engineer, by the call

A request that gives it: none; only a caller of the library can do it.
In C, with any request and chip that are in their form (else 1):

    uint32_t bank[81] = {0};
    clock_bank(request, sizeof request, chip, sizeof chip, bank, 81);

What to change: pass 82 words. The length counts words, not bytes: sizeof bank
is 328, and gives 2 as well. A refused call leaves the bank as it was.

    uint32_t bank[CLOCK_BANK] = {0};
    clock_bank(request, sizeof request, chip, sizeof chip, bank, CLOCK_BANK);
",
    );
}

fn page_3() {
    say(
        b"# 3: a clock is above 250 MHz
The system clock, AHB or an APB is requested above 250000000 Hz, which is the
limit of each of them.

About: `sys`, `ahb`, `apb1`, `apb2`, `apb3`
Who can mend it: the installer, by the request

A request that gives it:

    sys=250000001

What to change: request at most 250000000 Hz (250M) for each of the five. The
outputs of the PLLs have a limit of their own, see 9.

    sys=250000000
",
    );
}

fn page_4() {
    say(
        b"# 4: a clock output is from HSE, and no HSE is stated
MCO1 or MCO2 is to put out the clock of the crystal (HSE), and the request
does not say that there is a crystal.

About: `hse`, beside `mco1=hse` or `mco2=hse`
Who can mend it: the installer, by the request

A request that gives it:

    mco1=hse

What to change: state the crystal's frequency with `hse`, or choose another
source: hsi, pll1q or hsi48 for MCO1; sysclk, pll2p, pll1p, csi or lsi for
MCO2. An MCO without hertz stays off.

    hse=25M mco1=hse:25M
",
    );
}

fn page_5() {
    say(
        b"# 5: PLL1 P is unlike the system clock
A system clock that is not the frequency of its source (HSE, or HSI at
32000000 Hz) is taken from PLL1 P, and PLL1 P is requested at another
frequency.

About: `sys` and `pll1.p`; `mco2=sysclk:HERTZ` and `mco2=pll1p:HERTZ` count as
these where they are not given
Who can mend it: the installer, by the request

A request that gives it (a difference of 1 Hz is enough):

    sys=100M pll1.p=99999999

What to change: leave out `pll1.p`, which then takes the hertz of `sys`, or
give both the same number. Another frequency can be had from `pll1.q`,
`pll1.r` or PLL2. With `sys` left out, PLL1 P is not the system clock, and
`pll1.p` may be another frequency than the source's.

    sys=100M
",
    );
}

fn page_6() {
    say(
        b"# 6: the source has 0 Hz
The crystal (HSE), which feeds the system clock and the PLLs where it is
stated, is stated as 0 Hz.

About: `hse`
Who can mend it: the board, by its crystal; the installer, where `hse` does
not say what the board has

A request that gives it:

    hse=0

What to change: state the crystal's frequency, or leave out `hse` on a board
without a crystal; the source is then HSI at 32000000 Hz. Every number from 1
on passes here. A PLL needs at least 1000000 Hz, see 11.

    hse=25M
",
    );
}

fn page_7() {
    say(
        b"# 7: a PLL output of 0 Hz
P, Q or R of a PLL is requested at 0 Hz. An output that is not wanted is left
out of the request.

About: `pll1.p` to `pll3.r`; also `sys=0`, which asks PLL1 P for it, and an
MCO of 0 Hz from sysclk or from a PLL output that is not given
Who can mend it: the installer, by the request

A request that gives it:

    pll2.p=0

What to change: leave the word out, or request a frequency. From HSI and with
the strategy integer, one output alone is accepted from 1634242 to 559999999
Hz; P from 3230770 to 279999999 Hz where it may not divide by an odd number
(`odd1=0`).

    pll2.p=12.288M
",
    );
}

fn page_8() {
    say(
        b"# 8: a PLL's outputs are too far apart
P, Q and R of a PLL are divided from one VCO, each by at most 128. The least
requested is below the largest / 128, rounded down.

About: the least and the largest of P, Q and R of one PLL
Who can mend it: the installer, by the request

A request that gives it:

    pll2.p=150M pll2.q=1171874

What to change: raise the least output to the largest / 128 or more, or lower
the largest, or request one of them from another PLL. P counts doubled where
it may not divide by an odd number (`odd1=0`): `pll1.p=75M` counts as 150M.

    pll2.p=150M pll2.q=1171875
",
    );
}

fn page_9() {
    say(
        b"# 9: a PLL output is too high
The largest output requested of a PLL is 560000000 Hz or more, where the range
of the VCO ends. P counts doubled where it may not divide by an odd number.

About: the largest of P, Q and R of one PLL; also `mco1` and `mco2`, where
their hertz ask a PLL for it
Who can mend it: the installer, by the request

A request that gives it:

    pll1.p=280000000

What to change: request at most 559999999 Hz. For P of a PLL whose `odd1`,
`odd2` or `odd3` is 0, request at most 279999999 Hz.

    pll1.p=279999999
",
    );
}

fn page_10() {
    say(
        b"# 10: the VCO's target is outside its range
To divide the least output by at most 128, the VCO would have to run below its
range: 150000000 to 420000000 Hz (medium), or 128000000 to 560000000 Hz (wide,
for an output of 420000000 Hz or more).

About: the least of P, Q and R of one PLL; `sys`, where PLL1 P is that output
Who can mend it: the installer, by the request

A request that gives it (so do the numbers below it, down to 1):

    pll2.p=1634241

What to change: raise the least output. One alone is accepted from 1634242 Hz
on; beside others it depends on the largest. P counts doubled where it may not
divide by an odd number (`odd1=0`), see also 14. Slower clocks come from
prescalers: `ahb`, `apb1`, `apb2`, `apb3`, `mco1`, `mco2`.

    pll2.p=1634242
",
    );
}

fn page_11() {
    say(
        b"# 11: no reference divider M fits
No M from 1 to 63 divides the source (HSE, or HSI at 32000000 Hz) to a
reference that the VCO takes: 1 to 2 MHz in its medium range, 2 to 16 MHz in
its wide range, which is for an output of 420000000 Hz or more.

About: `hse`, where a PLL has an output; `sys` unlike `hse` needs PLL1
Who can mend it: the board, by its crystal; the installer, where `hse` does
not say what the board has

A request that gives it:

    hse=999999 pll2.p=12.288M

What to change: state a crystal of 1000000 to 126000000 Hz, or of 2000000 to
1008000000 Hz where the PLL's largest output is 420000000 Hz or more. Check
the unit: `hse=25` is 25 Hz, `hse=25M` is 25 MHz. Or leave out `hse`: HSI
always fits.

    hse=1000000 pll2.p=12.288M
",
    );
}

fn page_12() {
    say(
        b"# 12: the multiplier N is out of range
N, by which a PLL multiplies its reference, would be outside 4 to 512.

About: N of a PLL
Who can mend it: nobody has to; no request gives it

A request that gives it: none. It is proved that N is 75 to 420 in the
medium VCO range and 8 to 280 in the wide one, for every request and chip:

    crates/rules/proofs/Document01/Multiplier.antt     (pll-n)
    crates/rules/proofs/Document01/Refusals.antt       (typed-numbers)

What to change: nothing in the request. A program that shows 12 has it from
elsewhere; the firmware engineer looks at the program, and at which library is
linked. The largest N, 420, is that of this request, which is accepted:

    hse=1M pll2.p=210M
",
    );
}

fn page_13() {
    say(
        b"# 13: FRACN is out of range
FRACN, the part of N below 1 in steps of 1 / 8192, would not be in 0 to 8191.
It is worked out for the first requested of P, Q and R, whose frequency times
its divider has to come to the VCO's target.

About: `pll1=fractional`, `pll2=fractional` or `pll3=fractional`, and the
first of P, Q and R that is requested of that PLL
Who can mend it: the installer, by the request

A request that gives it:

    pll2=fractional pll2.p=1640626

What to change: try a number close by. Beside others, let the first of P, Q
and R divide the largest without remainder: P 30M with Q 100M is refused, P
25M with Q 100M is accepted. Or use the strategy integer, which has no FRACN.

    pll2=fractional pll2.p=1640625
",
    );
}

fn page_14() {
    say(
        b"# 14: the divider of P is above 128
P divides the VCO by at most 128, and the divider for the P requested is
larger. This comes up only where P may not divide by an odd number.

About: `pll1.p`, or `sys`, where it is PLL1 P, with `odd1=0`; also `pll2.p`
with `odd2=0` and `pll3.p` with `odd3=0`
Who can mend it: the installer, by the request

A request that gives it (so do the numbers below it, down to 817121):

    sys=3230769

What to change: request a P of 3230770 Hz or more; beside other outputs it
depends on the largest. A slower clock can be had from Q or R, or from P of a
PLL that may divide by an odd number: from 1634242 Hz on.

    sys=3230770
",
    );
}

fn page_15() {
    say(
        b"# 15: P would divide by an odd number
The divider from the VCO to the P requested comes out odd, and P of this PLL
may divide by even numbers only.

About: `pll1.p`, or `sys`, where it is PLL1 P, beside `pll1.q` or `pll1.r`,
with `odd1=0`; likewise PLL2 with `odd2=0` and PLL3 with `odd3=0`
Who can mend it: the installer, by the request

A request that gives it (the VCO runs at 400000000 Hz, and the divider is 5):

    pll1.p=80M pll1.q=200M

What to change: choose P and the other outputs so that the divider is even:
with Q 200M, P 100M (4) or 66666666 (6); with P 80M, Q 160M. Or request one of
them from another PLL. Q and R, and P of a PLL with `odd2=1`, may divide by an
odd number. `odd1` says what the chip can do; it is no setting.

    pll1.p=100M pll1.q=200M
",
    );
}

fn page_16() {
    say(
        b"# 16: HSI is off
The planner needs the internal oscillator HSI to be on, also where a crystal
is stated, and HSION was read as 0.

About: the chip's number HSION, `hsion`
Who can mend it: the firmware engineer, by the chip's state

A request that gives it:

    hsion=0

What to change: turn HSI on before the planner is called, then read HSION
again and call with 1.

    hsion=1
",
    );
}

fn page_17() {
    say(
        b"# 17: HSIDIV is not 2
HSI is 64000000 Hz divided by HSIDIV. The planner needs it at 32000000 Hz,
also where a crystal is stated, and HSIDIV was read as another divisor than 2.

About: the chip's number HSIDIV, `hsidiv`, which is the divisor
Who can mend it: the firmware engineer, by the chip's state

A request that gives it (so do 4 and 8; any other number gives 1):

    hsidiv=1

What to change: have HSI divided by 2 before the planner is called, then read
HSIDIV again and call with 2.

    hsidiv=2
",
    );
}

fn page_18() {
    say(
        b"# 18: a bus of 0 Hz
AHB or an APB is requested at 0 Hz. A bus that needs no frequency of its own
is left out of the request.

About: `ahb`, `apb1`, `apb2`, `apb3`
Who can mend it: the installer, by the request

A request that gives it:

    ahb=0

What to change: leave the word out, and the bus is not divided; or request 1
to 250000000 Hz. AHB is divided by at most 512 and an APB by at most 16, so
that a very low request gets a higher clock: AHB 1 Hz from HSI is 62500 Hz.

    ahb=1
",
    );
}

fn page_19() {
    say(
        b"# 19: AHB comes to 0 Hz
The system clock divided by AHB's divisor is below 1 Hz. The divisors are 1,
2, 4, 8, 16, 64, 128, 256 and 512, so only a crystal below 512 Hz gives this.

About: `hse` and `ahb`
Who can mend it: the board, by its crystal; the installer, where `hse` does
not say what the board has

A request that gives it (3 Hz divided by 4):

    hse=3 ahb=1

What to change: check the unit of `hse`: `hse=50` is 50 Hz, `hse=50M` is
50 MHz. Else request a higher `ahb`, or leave it out.

    hse=3 ahb=2
",
    );
}

fn page_20() {
    say(
        b"# 20: MCO1 from LSE
MCO1 is to put out the low-speed external oscillator (LSE). The planner only
repeats LSE's frequency in its report; it plans no clock from LSE.

About: `mco1=lse`, with hertz or without; stating `lse` does not help
Who can mend it: the firmware engineer, by the call; at the command line,
whoever types `mco1`

A request that gives it:

    mco1=lse

What to change: choose another source for MCO1: hsi (32000000 Hz), hse, pll1q
or hsi48 (48000000 Hz). A slow clock can be had at MCO2 from LSI, 32000 Hz:
`mco2=lsi:32k`.

    mco1=hsi:32M
",
    );
}

fn page_21() {
    say(
        b"# 21: a clock output is from a PLL output that is not planned
MCO1 is from PLL1 Q, or MCO2 from PLL1 P or PLL2 P, and that output is not
requested, neither by itself nor by the hertz of the MCO.

About: `mco1=pll1q`, `mco2=pll1p`, `mco2=pll2p` without hertz
Who can mend it: the firmware engineer, by the call; at the command line,
whoever types `mco1` or `mco2`

A request that gives it:

    mco1=pll1q

What to change: give the MCO its hertz; the PLL output takes them if it has
none of its own. Or request the output, as with `pll1.q=100M`: it is planned
then, and the MCO stays off until it has hertz.

    mco1=pll1q:100M
",
    );
}

fn page_22() {
    say(
        b"# 22: a clock output of 0 Hz
MCO1 or MCO2 is requested at 0 Hz. An MCO that is not wanted is left out of
the request, or has no hertz.

About: the hertz of `mco1` or `mco2`
Who can mend it: the installer, by the request

A request that gives it:

    mco1=hsi:0

What to change: leave out the hertz, and the MCO is off; or request the
source's clock / 15 or more, see 23. An MCO of 0 Hz from sysclk or from a PLL
output that is not given gives 7.

    mco1=hsi:32M
",
    );
}

fn page_23() {
    say(
        b"# 23: a clock output's ratio is above 15
The prescaler of an MCO divides its source by 1 to 15. The source's clock
divided by the hertz requested, rounded up, is above 15.

About: the hertz of `mco1` or `mco2`
Who can mend it: the installer, by the request

A request that gives it:

    mco2=lsi:2133

What to change: request at least the source's clock / 15, rounded up: 2133334
Hz from hsi, 3200000 from hsi48, 266667 from csi, 2134 from lsi, 1666667 from
an HSE of 25M. From a PLL output or sysclk it is the clock as planned that is
divided. More than the source's clock gets the source's clock.

    mco2=lsi:2134
",
    );
}

fn page_24() {
    say(
        b"# 24: CSIRDY is down at its check
A walk over a plan's register entries has come to the check that the internal
oscillator CSI is ready, and CSIRDY was read as 0. This ends the walk.

About: the chip's flag CSIRDY, as read at the check
Who can mend it: the firmware engineer, by the chip's state

A request that gives it: none by itself. Planning never answers 24;
only a walk (`clock_walk`) shows it. The walk of every accepted request does,
where CSIRDY reads 1 at its wait and 0 at its check, so also that of a request
for nothing.

What to change: nothing in the request. CSI was ready at its wait, so find
what has stopped it since, or where the value passed to the walk came from if
not from CSIRDY. The system clock has been switched by then; the entries after
the check, from SBSEN on, have not been carried out.
",
    );
}

// The page of a refusal.
pub fn page(number: u32) {
    match number {
        1 => page_1(),
        2 => page_2(),
        3 => page_3(),
        4 => page_4(),
        5 => page_5(),
        6 => page_6(),
        7 => page_7(),
        8 => page_8(),
        9 => page_9(),
        10 => page_10(),
        11 => page_11(),
        12 => page_12(),
        13 => page_13(),
        14 => page_14(),
        15 => page_15(),
        16 => page_16(),
        17 => page_17(),
        18 => page_18(),
        19 => page_19(),
        20 => page_20(),
        21 => page_21(),
        22 => page_22(),
        23 => page_23(),
        24 => page_24(),
        _ => say(b"The refusals have the numbers 1 to 24.\n"),
    }
}
