// The C functions of the leaves: docs/CODES.md, The C functions, and include/clock_api.h.
#![tactic(auto)]

ghost use Rattle.std.specs.Prelude.{◌≡◌, [], ◌∷◌, length};
ghost use Rattle.rules.specs.Words.{stored_from};

pub mod prescalers;
pub mod reset;
pub mod steps;

// Three words.
fn three(a: u32, b: u32, c: u32, out: &mut [u32]) -> u32
    requires { length out.old ≡ 3 }
    ensures code { result ≡ 0 }
    ensures out { out.new ≡ stored_from out.old 0 (a ∷ b ∷ c ∷ []) }
{
    out[0] = a;
    out[1] = b;
    out[2] = c;
    0
}
