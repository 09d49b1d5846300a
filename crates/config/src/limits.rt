// Refusals 3 and 4.
ghost use Rattle.std.specs.Prelude.{◌≡◌};
ghost use Rattle.rules.specs.Document01.Request as Rules;

use types::{Mco1Source, Mco2Source, Refusal, Request};

// At most 250,000,000, where it is requested.
fn within(h: Option<u32>) -> bool
    ensures { result ≡ Rules.within h }
{
    h.is_none_or(|f| f <= 250_000_000)
}

// Refusal 3.
pub fn limited(q: &Request) -> Result<(), Refusal>
    ensures { result ≡ Rules.limited q.now }
{
    if within(q.system) & (within(q.ahb) & (within(q.apb1) & (within(q.apb2) & within(q.apb3)))) {
        return Ok(());
    }
    Err(Refusal::AboveLimit)
}

// Refusal 4: an MCO from HSE has HSE stated.
pub fn stated(q: &Request) -> Result<(), Refusal>
    ensures { result ≡ Rules.stated q.now }
{
    let from_hse = q.mco1source == Mco1Source::Hse || q.mco2source == Mco2Source::Hse;
    if q.hse.is_some() || !from_hse {
        return Ok(());
    }
    Err(Refusal::McoHseUnstated)
}
