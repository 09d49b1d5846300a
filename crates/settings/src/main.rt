// The bench settings of document 01: what it states of each, beside what the planner finds on a chip with two PLLs and on one with three.
#![tactic(auto)]

mod compare;
mod found;
mod table;

fn main() {
    print::say(b"number            stated      two PLLs    three PLLs\n");
    let t = compare::each(table::TABLE);
    found::line(
        b"{0} numbers of {1} settings compared on two and on three PLLs, {2} differ\n",
        &[t.numbers, t.settings, t.differ],
    );
}
