// Bytes written one behind the other, as far as there is room.
ghost use Rattle.std.specs.Prelude.{◌≡◌, [], ◌∷◌, ◌≤◌, ◌<◌, length, replicate, MatchOption};
ghost use Rattle.text.specs.Names.{column, texts_of};
ghost use Rattle.room.specs.Write.{Wrote};
ghost use Rattle.template.specs.Write.{decimal_of, aligned, name_of, column_of};

use room::Room;

fn blanks(out: &mut Room<u8>, count: usize)
    ensures { Wrote out.old out.new (replicate count 32) }
{
    let n = count.min(out.items.len() - out.at);
    out.items[out.at..out.at + n].fill(b' ');
    out.at += n;
}

fn copy(out: &mut Room<u8>, s: &[u8])
    ensures { Wrote out.old out.new s.now }
{
    text::store(out.items, out.at, s);
    out.at += s.len().min(out.items.len() - out.at);
}

// A number, with blanks before it up to so many columns.
#[tactic(auto, using(room::proofs::Written::parts))]
pub fn decimal(out: &mut Room<u8>, width: usize, n: u64)
    ensures { Wrote out.old out.new (aligned width (decimal_of n)) }
{
    let count = digit_count(n);
    blanks(out, width.saturating_sub(count as usize));
    digits(out, count, n);
}

// Its digits, so many of them: from the last up in a row of twenty, which is then copied.
fn digits(out: &mut Room<u8>, count: u32, n: u64)
    requires { count ≡ length (decimal_of n) }
    ensures { Wrote out.old out.new (decimal_of n) }
{
    let mut row = [0u8; 20];
    let mut rest = n;
    for k in (0..count as usize).rev() {
        row[k] = b'0' + (rest % 10) as u8;
        rest /= 10;
    }
    copy(out, &row[..count as usize]);
}

// Name n of a table; nothing where there is none.
pub fn name(out: &mut Room<u8>, names: &[&[u8]], n: u64)
    ensures { Wrote out.old out.new (name_of (texts_of names.now) n) }
{
    if let Some(name) = name_at(names, n) {
        copy(out, name);
    }
}

// A name, and blanks behind it up to twelve columns.
#[tactic(auto, using(room::proofs::Written::parts))]
fn in_column(out: &mut Room<u8>, name: &[u8])
    ensures { Wrote out.old out.new (column name.now) }
{
    copy(out, name);
    blanks(out, 12usize.saturating_sub(name.len()));
}

// The same of name n of a table; nothing where there is none.
#[tactic(auto, unfolding(crate::specs::Write::column_of))]
pub fn column(out: &mut Room<u8>, names: &[&[u8]], n: u64)
    ensures { Wrote out.old out.new (column_of (texts_of names.now) n) }
{
    if let Some(name) = name_at(names, n) {
        in_column(out, name);
    }
}

// How many digits a number has.
#[tactic(auto, using(crate::proofs::Digits::counted))]
fn digit_count(n: u64) -> u32
    ensures { result ≡ length (decimal_of n) }
{
    n.checked_ilog10().unwrap_or(0) + 1
}

// Name n of a table.
fn name_at<'a>(names: &[&'a [u8]], n: u64) -> Option<&'a [u8]>
    ensures { MatchOption result (length names.now ≤ n) (λ name. (n < length names.now) × (name.now ≡ name_of (texts_of names.now) n)) }
{
    names.get(n as usize).copied()
}
