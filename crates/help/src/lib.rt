// What there is to say of a refusal, of a wrong word, and of no word at all.
#![tactic(auto)]

use ask::{Kind, Wrong, WrongWord};
use print::say;

mod pages;

// The page of a refusal.
pub fn page(number: u32) {
    pages::page(number);
}

// The words that there are.
pub fn usage() {
    say(
        b"plan WORD...      plan a request and show the plan, or the refusal
plan @FILE...     words from a file
plan help NN      what refusal NN means, and what to change
plan settings     the bench settings of document 01

",
    );
    keys();
}

fn keys() {
    say(
        b"hse= lse= audio= sys= per= ahb= apb1= apb2= apb3=
                  hertz: 25000000, 25M, 12.288M, 32k
bypass            HSE is a clock, and no crystal
mco1=SOURCE:HERTZ hsi lse hse pll1q hsi48, with hertz or without
mco2=SOURCE:HERTZ sysclk pll2p hse pll1p csi lsi
pll1= pll2= pll3= integer or fractional
pll1.p= pll1.q= pll1.r= pll2.p= ...
                  hertz
",
    );
    say(
        b"chip=two odd1=0 odd2=1 odd3=1 scale=0 hsion=1 hsidiv=2
                  the chip, as it is by default
show=entries show=bank show=bytes
                  what else is shown
bytes=HEX         a request as bytes
",
    );
}

// What would be right.
fn right(wrong: Wrong) {
    match wrong {
        Wrong::Value(kind) => right_value(kind),
        Wrong::NoSuchKey => {
            say(b"there is no such word. The words are:\n\n");
            keys();
        }
    }
}

fn right_value(kind: Kind) {
    say(match kind {
        Kind::Hertz => b"hertz are wanted, below 4294967296:\n25000000, 25M, 12.288M or 32k\n",
        Kind::Nothing => b"it takes no value\n",
        Kind::Mco1 =>
            b"a source is wanted, with :HERTZ or without:\nhsi, lse, hse, pll1q or hsi48\n",
        Kind::Mco2 =>
            b"a source is wanted, with :HERTZ or without:\nsysclk, pll2p, hse, pll1p, csi or lsi\n",
        Kind::Strategy => b"integer or fractional is wanted\n",
        Kind::Count => b"two or three is wanted\n",
        Kind::Small => b"a number from 0 to 255 is wanted\n",
        Kind::Shown => b"plan, entries, bank or bytes is wanted\n",
        Kind::Digits =>
            b"two hexadecimal digits for each byte are wanted,\nfor 106 bytes at most\n",
    });
}

// A wrong word, and what would be right. One that begins with @ is a file that cannot be read.
pub fn wrong_word(words: &[u8], at: WrongWord) {
    let word = words.get(at.from..at.to).unwrap_or(b"");
    say(b"plan: ");
    say(word);
    say(b": ");
    if words.get(at.from) == Some(&b'@') {
        say(b"this file cannot be read\n");
    } else {
        right(at.wrong);
    }
}
