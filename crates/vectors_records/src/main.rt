// Runs the cases that stand on standard input, one to a line, over `replay_text`, `records` and `records_plain`, and prints what they
// answer. `= NAME` names what follows, and is printed. `b LENGTH HEX` is a bundle of so many bytes, those of HEX and then zeros: its
// replay. `m COUNT hint.. COUNT cut.. HEX` are streams in one buffer with their hints: the answers of the merge to its end, and one more,
// by the heap, then, after a line `plain`, by the plain engine. `w` and such a case is the plain engine on memory that is not right.
#![tactic(auto)]

mod bundles;
mod merges;
mod plains;

// Runs the case that a line holds.
fn run_line(text: &[u8], at: usize) {
    let kind = vectors_text::byte_at(text, at);
    let rest = vectors_text::past(text, at);
    match kind {
        b'=' => vectors_merge::print_line(text, rest),
        b'b' => bundles::run(text, rest),
        b'm' => merges::run(text, rest, merges::both),
        b'w' => merges::run(text, rest, plains::wrong),
        _ => {}
    }
}

// Runs the lines of the text.
fn run(text: &[u8]) {
    let mut at = 0;
    while at < text.len() {
        run_line(text, at);
        at = vectors_text::next_line(text, at);
    }
}

fn main() {
    let mut data = vectors_text::data_room();
    let n = io::read_full(0, &mut data);
    run(&data[..n]);
}
