// What the planner finds: the words of a request planned on a chip, and the numbers of the plan by their names.
ghost use Rattle.std.specs.Prelude.{◌≡◌, ◌<◌, IfSome};
ghost use Rattle.settings.specs.Numbers.{numbers_of};

use ask::WrongWord;
use types::{Plan, Refusal};

// The names of the numbers: of a PLL its settings, the dividers of P and Q, and the hertz of P.
const NAMES: [&[u8]; 19] = [
    b"refused",
    b"pll1.vcosel",
    b"pll1.m",
    b"pll1.n",
    b"pll1.divp",
    b"pll2.vcosel",
    b"pll2.target",
    b"pll2.m",
    b"pll2.ref",
    b"pll2.n",
    b"pll2.fracn",
    b"pll2.vco",
    b"pll2.divp",
    b"pll2.divq",
    b"pll2.hertz",
    b"latency",
    b"ahb",
    b"hpre",
    b"mco1pre",
];

// A template with its numbers, over these names.
pub fn line(form: &[u8], numbers: &[u64]) {
    print::line(form, &NAMES, numbers);
}

// The number of a name.
pub fn name_number(name: &[u8]) -> Option<usize>
    ensures { IfSome result (λ k. k < 19) }
{
    text::name_number(&NAMES, name)
}

// The numbers in the order of their names. Beside a refusal, which is the first of them, they are those of the plan of zeros.
fn numbers(x: &Result<Plan, Refusal>) -> [u32; 19]
    ensures { result ≡ numbers_of x.now }
{
    let plan = x.unwrap_or(report::blank_plan());
    let a = pll_words::all_words(&plan.plls[0]);
    let b = pll_words::all_words(&plan.plls[1]);
    [
        refusal::code_of(x),
        a[0],
        a[2],
        a[5],
        a[10],
        b[0],
        b[1],
        b[2],
        b[3],
        b[5],
        b[7],
        b[8],
        b[10],
        b[13],
        b[11],
        plan.waits.latency,
        plan.buses.ahb.clock,
        plan.buses.ahb.pre,
        plan.mcos.mco1.pre,
    ]
}

// The words of the chip, and over them those of the request, planned.
pub fn on(chip: &[u8], request: &[u8]) -> Result<[u32; 19], WrongWord> {
    let mut sheet = sheet::fresh();
    ask::take_all(&mut sheet, chip)?;
    ask::take_all(&mut sheet, request)?;
    Ok(numbers(&rcc::plan(sheet::request(&sheet), sheet::chip(&sheet))))
}
