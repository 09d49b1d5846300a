// A PLL, an entry, a word of a bank, a byte of a request and a register as the numbers of one line: docs/CODES.md, The page of a plan.
#![tactic(auto)]

ghost use Rattle.std.specs.Prelude.{◌≡◌, cond, ◌||◌, ◌+◌, ◌%◌, eqb};
ghost use Rattle.rules.specs.Document01.Entries.{bit};
ghost use Rattle.rules.specs.Manual.Tree.{word as word_of};
ghost use Rattle.lines.specs.Lines.{pll_line, entry_line, word_line, byte_line, hex_line};

// A word, as a number of a line.
fn wide(s: &[u32], k: usize) -> u64
    ensures { result ≡ word_of s.now k }
{
    fields::word(s, k) as u64
}

// The clock that feeds a PLL.
fn feed(src: u32) -> u64
    ensures { result ≡ cond (eqb src 3) 12 8 }
{
    if src == 3 { 12 } else { 8 }
}

// 1 where byte i of n ends a row of thirty or is the last, else 0.
fn ends(i: usize, n: usize) -> u64
    ensures { result ≡ bit (eqb (i % 30) 29 || eqb (i + 1) n) }
{
    (i % 30 == 29 || n > 0 && i == n - 1) as u64
}

// PLL n by its PLLSRC and its words.
#[tactic(auto, unfolding(crate::specs::Lines::pll_line))]
pub fn pll_line(n: u32, src: u32, words: &[u32]) -> [u64; 9]
    ensures { result ≡ pll_line n src words.now }
{
    [
        n as u64,
        feed(src),
        wide(words, 2),
        wide(words, 3),
        wide(words, 5),
        wide(words, 6),
        wide(words, 7),
        wide(words, 8),
        30 + wide(words, 0),
    ]
}

// Entry i by its words.
#[tactic(auto, unfolding(crate::specs::Lines::entry_line))]
pub fn entry_line(i: u32, words: &[u32]) -> [u64; 10]
    ensures { result ≡ entry_line i words.now }
{
    [
        i as u64 + 1,
        82 + wide(words, 0),
        wide(words, 1),
        wide(words, 2),
        wide(words, 3),
        wide(words, 4),
        wide(words, 5),
        wide(words, 6),
        wide(words, 7),
        wide(words, 8),
    ]
}

// Word f of a bank.
#[tactic(auto, unfolding(crate::specs::Lines::word_line))]
pub fn word_line(bank: &[u32], f: u32) -> [u64; 4]
    ensures { result ≡ word_line bank.now f }
{
    let k = f as usize;
    [f as u64, f as u64 + 1, wide(bank, k), (k % 3 == 2) as u64]
}

// Byte i of a request.
#[tactic(auto, unfolding(crate::specs::Lines::byte_line))]
pub fn byte_line(request: &[u8], i: usize) -> [u64; 4]
    ensures { result ≡ byte_line request.now i }
{
    let b = request.get(i).copied().unwrap_or(0) as u64;
    [(i % 30 == 0) as u64, b / 16, b % 16, ends(i, request.len())]
}

// The digits of a register.
#[tactic(auto, unfolding(crate::specs::Lines::hex_line))]
pub fn hex_line(word: u32) -> [u64; 8]
    ensures { result ≡ hex_line word }
{
    let w = word as u64;
    [
        w / 268435456 % 16,
        w / 16777216 % 16,
        w / 1048576 % 16,
        w / 65536 % 16,
        w / 4096 % 16,
        w / 256 % 16,
        w / 16 % 16,
        w % 16,
    ]
}
