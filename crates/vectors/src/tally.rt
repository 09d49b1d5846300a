// What was replayed, and the lines that say so.

// By what the Rust did, how many of its answers are the planner's, which are plans, refusals, its end with a forbidden divider of P, and bytes on
// which it is not run; the plans' entries; how many answers differ; and both kinds of other refusals together.
#[derive(Drop)]
pub struct Tally {
    did: [u64; 4],
    entries: u64,
    differ: u64,
    others: u64,
}

pub fn fresh() -> Tally {
    Tally {
        did: [0; 4],
        entries: 0,
        differ: 0,
        others: 0,
    }
}

fn say(form: &[u8], numbers: &[u64]) {
    print::line(
        form,
        &[b"realistic", b"boundary", b"full-range", b"damaged"],
        numbers,
    );
}

impl Tally {
    // The number that counts what the Rust did. No record has a byte above 3: it counts at the numbers behind the four, in turns of nine, of which two
    // are of the whole file.
    fn number(&mut self, did: u32) -> Option<&mut u64> {
        match did % 9 {
            k @ 0..=3 => Some(&mut self.did[k as usize]),
            4 => Some(&mut self.entries),
            5 => Some(&mut self.differ),
            6 => Some(&mut self.others),
            _ => None,
        }
    }

    pub fn agrees(&mut self, did: u32, entries: u32) {
        if let Some(n) = self.number(did) {
            *n = n.wrapping_add(1);
        }
        self.entries = self.entries.wrapping_add(u64::from(entries));
        self.others = self.others.wrapping_add(u64::from(did / 2));
    }

    // Record k differs: its kind and both answers, 0 for a plan and another number for a refusal.
    pub fn differs(&mut self, k: u32, kind: u32, rust: u32, planner: u32) {
        self.differ = self.differ.wrapping_add(1);
        if self.differ <= 10 {
            say(
                b"record {0}, {1#}, differs: the Rust {2}, the planner {3}\n",
                &[
                    u64::from(k),
                    u64::from(kind),
                    u64::from(rust),
                    u64::from(planner),
                ],
            );
        }
    }

    // Of so many records, and whether the file goes on behind them.
    pub fn show(&self, records: u32, more: bool) {
        let [plans, refusals, forbidden, damaged] = self.did;
        say(
            b"{7} requests: {0} plans and {1} refusals as the Rust, {6} other refusals; {5} differ\n\
            plans: 26 clocks, 3 divisors and all entries, together {4}\n\
            other refusals: {2} where the Rust ends with a forbidden divider of P (14, 15), {3} of damaged bytes, on which it is not run (1)\n\
            {8?}bytes behind the last record\n",
            &[
                plans,
                refusals,
                forbidden,
                damaged,
                self.entries,
                self.differ,
                self.others,
                u64::from(records),
                u64::from(more),
            ],
        );
    }
}
