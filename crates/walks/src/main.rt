// Walks on a simulated chip: the register walks of bench settings A and C, the voltage walk from each scale to each, and the reset reason of
// every set of flags.
#![tactic(auto)]

mod ask;
mod chip;
mod entry;
mod reasons;
mod register;
mod voltage;

fn main() {
    print::say(b"Setting A\n");
    register::walk(ask::setting_a());
    print::say(b"Setting C\n");
    register::walk(ask::setting_c());
    print::say(b"Voltage walks\n");
    voltage::all();
    print::say(b"Reset reasons\n");
    reasons::all();
}
