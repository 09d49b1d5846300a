// One record: a request, its chip and the Rust's answer, against the planner's.
use crate::input;
use crate::input::{byte, u16le, u32le};
use crate::tally::Tally;
use std::fs::File;
use types::{Chip, Plan, Refusal};

pub fn replay(file: &mut File, k: u32, t: &mut Tally) -> std::io::Result<()> {
    let kind = byte(file)?;
    let did = byte(file)?;
    let rust = byte(file)?;
    let entries = byte(file)?;
    let length = byte(file)?;
    let x = planned(file, length)?;
    let planner = refusal::code_of(&x);
    if same(file, x, did, entries)? && rust == planner {
        t.agrees(did, entries);
    } else {
        t.differs(k, kind, rust, planner);
    }
    Ok(())
}

fn planned(file: &mut File, length: u32) -> std::io::Result<Result<Plan, Refusal>> {
    let chip = Chip {
        plls: byte(file)?,
        odd: [byte(file)?, byte(file)?, byte(file)?],
        scale: byte(file)?,
        hsion: byte(file)?,
        hsidiv: byte(file)?,
    };
    let mut request = [0u8; 128];
    input::fill(file, &mut request)?;
    let n = (length as usize).min(request.len());
    Ok(rcc::plan(&request[..n], chip))
}

// A plan's clocks and divisors, the 55 words of a report, stand behind the request, and then its entries. A refusal is compared as the plan of zeros.
fn same(
    file: &mut File,
    x: Result<Plan, Refusal>,
    did: u32,
    entries: u32,
) -> std::io::Result<bool> {
    if did != 0 {
        return Ok(true);
    }
    let mut words = [0u32; 2304];
    report::store_report(&x.unwrap_or(report::blank_plan()), &mut words);
    let clocks = wide(file, &words)?;
    listing::store_list(&x, &mut words);
    let list = narrow(file, &words, entries)?;
    Ok(clocks && list)
}

fn wide(file: &mut File, words: &[u32; 2304]) -> std::io::Result<bool> {
    let mut same = true;
    for word in &words[..55] {
        same &= *word == u32le(file)?;
    }
    Ok(same)
}

// Every entry in order, and no more of them.
fn narrow(file: &mut File, words: &[u32; 2304], entries: u32) -> std::io::Result<bool> {
    let mut same = words[0] == entries;
    let n = (entries % 256) as usize * 9;
    for word in &words[1..1 + n] {
        same &= *word == u16le(file)?;
    }
    Ok(same)
}
