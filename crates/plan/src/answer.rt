// A sheet planned: its plan, or its refusal with the page of docs/help.
use crate::refused;
use types::{Plan, Refusal};

// What the planner answers to a sheet, in a bank at reset values.
fn ask_planner(sheet: &[u8], bank: &mut [u32]) -> Result<Plan, Refusal> {
    rcc::plan_bank(sheet::request(sheet), sheet::chip(sheet), bank)
}

// The plan, or the refusal with its page; then what else is asked for.
pub fn show(sheet: [u8; 115]) {
    let mut bank = fields::reset_bank();
    let x = ask_planner(&sheet, &mut bank);
    match &x {
        Ok(_) => page::plan(&x, &bank),
        Err(n) => {
            refused::show(sheet, *n);
            help::page(refusal::number_of(*n));
        }
    }
    page::also(&x, &bank, &sheet);
}
