// A refusal: its number, and the word that it is about.
use types::Refusal;

// A line about the word of a key, whose name is the only one of its table.
fn about(form: &[u8], n: Refusal, k: usize) {
    if let Some((name, _, _)) = ask::KEYS.get(k) {
        print::line(form, &[name], &[u64::from(refusal::number_of(n)), 0]);
    }
}

// The number, and the word without which the request is not refused with it; where no single one is, the last that goes with others.
pub fn show(sheet: [u8; 115], n: Refusal) {
    if let Some(k) = blame::blamed(sheet) {
        about(
            b"Refused: {0}, about {1#}. Without it the request is not refused with {0}.\n",
            n,
            k,
        );
    } else if let Some(k) = blame::last_blamed(sheet) {
        about(
            b"Refused: {0}, about {1#} and other words: leaving out one is not enough.\n",
            n,
            k,
        );
    }
}
