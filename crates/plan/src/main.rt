// The planner from the command line: a request in words, planned and shown. README.md; docs/CODES.md, A request in words.
#![tactic(auto)]

mod answer;
mod input;
mod refused;

fn main(rt: HostRuntime) {
    let words = input::gather(&rt);
    if words.count < 4096 {
        run(&words.room[..words.count]);
        return;
    }
    print::say(b"plan: the words take more than 4095 bytes\n");
}

// Help, or a request.
fn run(words: &[u8]) {
    if words.is_empty() {
        help::usage();
    } else if let Some(number) = words.strip_prefix(b"help ") {
        input::help(number);
    } else {
        plan(words);
    }
}

// A request: its plan, or its refusal, or the word that is wrong.
fn plan(words: &[u8]) {
    let mut sheet = sheet::fresh();
    match ask::take_all(&mut sheet, words) {
        Ok(()) => answer::show(sheet),
        Err(w) => help::wrong_word(words, w),
    }
}
