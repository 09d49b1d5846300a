// The number of each refusal, as document 01 has it, and of an answer.
#![tactic(auto)]

ghost use Rattle.std.specs.Prelude.{◌≡◌, Some};
ghost use Rattle.rules.specs.Document01.Refusals.{number_of, refusal_of, code_of};

use types::Refusal;

pub fn number_of(n: Refusal) -> u32
    ensures { result ≡ number_of n }
{
    listed_number(n)
}

// The number under which the list has the refusal.
fn listed_number(n: Refusal) -> u32
    ensures { refusal_of result ≡ Some n }
{
    n as u32
}

// 0 for what is answered, or the refusal's number.
pub fn code_of<T>(answer: &Result<T, Refusal>) -> u32
    ensures { result ≡ code_of answer.now }
{
    match answer {
        Ok(_) => 0,
        Err(n) => number_of(*n),
    }
}
