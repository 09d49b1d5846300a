// Bench settings A and C of document 01, planned.
use types::{
    ChipState, Hsidiv, Mco1Source, Mco2Source, Plan, PllRequest, Refusal, Request, Scale, Strategy,
};

fn request(system: Option<u32>, pll2: PllRequest) -> Request {
    let none = PllRequest::default();
    Request {
        hse: None,
        lse: None,
        audio: None,
        system,
        peripheral: None,
        ahb: None,
        apb1: None,
        apb2: None,
        apb3: None,
        bypass: false,
        mco1source: Mco1Source::Hsi,
        mco1: None,
        mco2source: Mco2Source::Sysclk,
        mco2: None,
        plls: [none, pll2, none],
    }
}

fn planned(q: Request, odd: bool) -> Result<Plan, Refusal> {
    let c = ChipState {
        three: false,
        odd: [odd; 3],
        scale: Scale::Scale0,
        hsion: true,
        hsidiv: Hsidiv::Div2,
    };
    freeze::answer_to(&q, &c)
}

// Odd P forbidden, system 250 MHz.
pub fn setting_a() -> Result<Plan, Refusal> {
    planned(request(Some(250_000_000), PllRequest::default()), false)
}

// PLL2 Fractional, P 12,288,000.
pub fn setting_c() -> Result<Plan, Refusal> {
    let pll2 = PllRequest {
        strategy: Strategy::Fractional,
        p: Some(12_288_000),
        ..PllRequest::default()
    };
    planned(request(None, pll2), true)
}
