// The variant that a code stands for: docs/CODES.md, A request as bytes; document 01, refusal 1, for the chip's numbers.
ghost use Rattle.std.specs.Prelude.{◌≡◌};
ghost use Rattle.types.specs.Codes.{coded, hsidiv_coded, mco1_sources, mco2_sources, scales, strategies};

use crate::{Hsidiv, Mco1Source, Mco2Source, Refusal, Scale, Strategy};

impl TryFrom<u8> for Strategy {
    type Error = Refusal;

    ghost try_from_gives = { λ n r. r ≡ coded strategies n };

    fn try_from(code: u8) -> Result<Self, Refusal> {
        match code {
            0 => Ok(Strategy::Integer),
            1 => Ok(Strategy::Fractional),
            _ => Err(Refusal::OutsideCodes),
        }
    }
}

impl TryFrom<u8> for Mco1Source {
    type Error = Refusal;

    ghost try_from_gives = { λ n r. r ≡ coded mco1_sources n };

    fn try_from(code: u8) -> Result<Self, Refusal> {
        match code {
            0 => Ok(Mco1Source::Hsi),
            1 => Ok(Mco1Source::Lse),
            2 => Ok(Mco1Source::Hse),
            3 => Ok(Mco1Source::Pll1Q),
            4 => Ok(Mco1Source::Hsi48),
            _ => Err(Refusal::OutsideCodes),
        }
    }
}

impl TryFrom<u8> for Mco2Source {
    type Error = Refusal;

    ghost try_from_gives = { λ n r. r ≡ coded mco2_sources n };

    fn try_from(code: u8) -> Result<Self, Refusal> {
        match code {
            0 => Ok(Mco2Source::Sysclk),
            1 => Ok(Mco2Source::Pll2P),
            2 => Ok(Mco2Source::Hse),
            3 => Ok(Mco2Source::Pll1P),
            4 => Ok(Mco2Source::Csi),
            5 => Ok(Mco2Source::Lsi),
            _ => Err(Refusal::OutsideCodes),
        }
    }
}

impl TryFrom<u32> for Scale {
    type Error = Refusal;

    ghost try_from_gives = { λ n r. r ≡ coded scales n };

    fn try_from(code: u32) -> Result<Self, Refusal> {
        match code {
            0 => Ok(Scale::Scale0),
            1 => Ok(Scale::Scale1),
            2 => Ok(Scale::Scale2),
            3 => Ok(Scale::Scale3),
            _ => Err(Refusal::OutsideCodes),
        }
    }
}

impl TryFrom<u32> for Hsidiv {
    type Error = Refusal;

    ghost try_from_gives = { λ n r. r ≡ hsidiv_coded n };

    fn try_from(code: u32) -> Result<Self, Refusal> {
        match code {
            1 => Ok(Hsidiv::Div1),
            2 => Ok(Hsidiv::Div2),
            4 => Ok(Hsidiv::Div4),
            8 => Ok(Hsidiv::Div8),
            _ => Err(Refusal::OutsideCodes),
        }
    }
}
