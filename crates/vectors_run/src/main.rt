// Runs the cases that stand on standard input, one to a line, over `records_run`, and prints what they answer. `= NAME` names what
// follows, and is printed. `w COUNT cut.. COUNT pair.. HEX` are streams in one buffer, and runs on them: a pair is an allowance and the
// words of a list, each of which holds 9. A run prints its calls, the records that it wrote, how it stopped, and the first nine words of
// its list.
#![tactic(auto)]

mod wholes;

// Runs the case that a line holds.
fn run_line(text: &[u8], at: usize) {
    let kind = vectors_text::byte_at(text, at);
    let rest = vectors_text::past(text, at);
    if kind == b'=' {
        vectors_merge::print_line(text, rest);
    }
    if kind == b'w' {
        wholes::run(text, rest);
    }
}

// Runs the lines of the text.
fn run(text: &[u8]) {
    let mut at = 0;
    while at < text.len() {
        run_line(text, at);
        at = vectors_text::next_line(text, at);
    }
}

fn main() {
    let mut data = vectors_text::data_room();
    let n = io::read_full(0, &mut data);
    run(&data[..n]);
}
