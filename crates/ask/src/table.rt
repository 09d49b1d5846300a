// The keys of a request's words: their names, what kind of value each takes, and the place of its bytes. docs/CODES.md, A request in words.
ghost use Rattle.std.specs.Prelude.{◌≡◌, position};
ghost use Rattle.text.specs.Names.{number_in, is_name, column};
ghost use Rattle.ask.specs.Table.{key_names, key_at};

use crate::{Key, Kind};

// The keys, by their numbers.
pub const KEYS: [(&[u8], Kind, usize); 33] = [
    (b"hse", Kind::Hertz, 0),
    (b"lse", Kind::Hertz, 5),
    (b"audio", Kind::Hertz, 10),
    (b"sys", Kind::Hertz, 15),
    (b"per", Kind::Hertz, 20),
    (b"ahb", Kind::Hertz, 25),
    (b"apb1", Kind::Hertz, 30),
    (b"apb2", Kind::Hertz, 35),
    (b"apb3", Kind::Hertz, 40),
    (b"bypass", Kind::Nothing, 45),
    (b"mco1", Kind::Mco1, 46),
    (b"mco2", Kind::Mco2, 52),
    (b"pll1", Kind::Strategy, 58),
    (b"pll1.p", Kind::Hertz, 59),
    (b"pll1.q", Kind::Hertz, 64),
    (b"pll1.r", Kind::Hertz, 69),
    (b"pll2", Kind::Strategy, 74),
    (b"pll2.p", Kind::Hertz, 75),
    (b"pll2.q", Kind::Hertz, 80),
    (b"pll2.r", Kind::Hertz, 85),
    (b"pll3", Kind::Strategy, sheet::PLL3),
    (b"pll3.p", Kind::Hertz, sheet::PLL3 + 1),
    (b"pll3.q", Kind::Hertz, sheet::PLL3 + 6),
    (b"pll3.r", Kind::Hertz, sheet::PLL3 + 11),
    (b"chip", Kind::Count, sheet::CHIP),
    (b"odd1", Kind::Small, sheet::CHIP + 1),
    (b"odd2", Kind::Small, sheet::CHIP + 2),
    (b"odd3", Kind::Small, sheet::CHIP + 3),
    (b"scale", Kind::Small, sheet::CHIP + 4),
    (b"hsion", Kind::Small, sheet::CHIP + 5),
    (b"hsidiv", Kind::Small, sheet::CHIP + 6),
    (b"show", Kind::Shown, sheet::SHOWN),
    (b"bytes", Kind::Digits, sheet::GIVEN),
];

// The place of a key's name among keys.
fn place_in(keys: &[(&[u8], Kind, usize)], name: &[u8]) -> Option<usize>
    ensures { result ≡ position (λ row. is_name (column row.0.now) name.now) keys.now }
{
    keys.iter().position(|(key, _, _)| text::is_name(key, name))
}

// The number of a key. An empty name is no key's; asked here, that need not be asked again at each key.
#[tactic(auto, using(crate::proofs::Keys::nameless), unfolding(crate::specs::Table::keys, text::specs::Names::number_in))]
pub fn key_number(name: &[u8]) -> Option<usize>
    ensures { result ≡ number_in key_names name.now }
{
    if name.is_empty() {
        return None;
    }
    place_in(&KEYS, name)
}

// Key k; a key without a value at the start of a sheet past the last one.
pub fn key(k: usize) -> Key
    ensures { result ≡ key_at k }
{
    let (_, kind, place) = KEYS.get(k).copied().unwrap_or((b"", Kind::Nothing, 0));
    Key { kind, place }
}
