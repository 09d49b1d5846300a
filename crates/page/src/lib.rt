// A plan's page: every reported clock, the PLLs, the wait states; then what else is asked for.
#![tactic(auto)]

use types::{Plan, PllSettings, Refusal};

mod list;

fn clocks(report: &[u32], bank: &[u32], hse: Option<u32>) {
    print::say(b"clock            hertz  from\n");
    for k in 0..26 {
        let numbers = view::clock_line(report, bank, hse, k);
        if numbers[1] != 0 {
            print::line(
                b"{0|}{10:2}{4?}  {3#}{.}{5?} / {5}{.}{6?}  exact {7}{.}{8?} {8}/{9}{.}{10?}  not started{.}\n",
                &print::CLOCKS,
                &numbers,
            );
        }
    }
}

fn pll(n: u32, x: &Option<PllSettings>, src: u32) {
    let numbers = lines::pll_line(n, src, &pll_words::all_words(x));
    if numbers[2] != 0 {
        print::line(
            b"pll{0}        {1#} / {2} = {3}, x {4}{5?} + {6}/8192{.}, VCO {7}, {8#}\n",
            &print::CLOCKS,
            &numbers,
        );
    }
}

// The clocks, the PLLs and the wait states; beside a refusal those of the plan of zeros.
pub fn plan(x: &Result<Plan, Refusal>, bank: &[u32; 82]) {
    let p = x.unwrap_or(report::blank_plan());
    let mut words: [u32; 55] = [0; 55];
    report::store_report(&p, &mut words);
    clocks(&words, bank, p.clocks.hse);
    let source = p.selectors.src;
    pll(1, &p.plls[0], source);
    pll(2, &p.plls[1], source);
    pll(3, &p.plls[2], source);
    print::line(
        b"flash       latency {0}, delay {1}\nentries     {2}\n",
        &print::CLOCKS,
        &[
            u64::from(p.waits.latency),
            u64::from(p.waits.delay),
            entries::entry_count(x) as u64,
        ],
    );
}

// The entries, the bank or the request's bytes, by the sheet's byte behind the chip.
pub fn also(x: &Result<Plan, Refusal>, bank: &[u32; 82], sheet: &[u8]) {
    list::show(x, bank, sheet);
}
