// The Rust's answers to a stored sample of requests, replayed: each request through the planner, and every clock, divisor and entry, or the
// refusal's number, against what the file has. docs/VECTORS.md.
#![tactic(auto)]

mod input;
mod record;
mod tally;

use std::fs::File;

// Record after record, as many as the file says.
fn main(rt: HostRuntime) -> std::io::Result<()> {
    let mut file = File::open(&rt, "answers.bin")?;
    let mut t = tally::fresh();
    let count = input::u32le(&mut file)?;
    for k in 0..count {
        record::replay(&mut file, k, &mut t)?;
    }
    let more = input::goes_on(&mut file)?;
    t.show(count, more);
    Ok(())
}
