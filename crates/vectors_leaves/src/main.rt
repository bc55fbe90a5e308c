// Runs the cases that stand on standard input, one to a line, over the leaves, and prints a line for each group of them.
// A case is of dates (m, d), UTF-8 (u), number text (n), frames (f) or single records (r); the data itself says what a line
// means. A case that is answered otherwise than expected is printed.
#![tactic(auto)]

mod dates;
mod frames;
mod texts;

use vectors_text::Tally;

// Runs the lines of one kind, each from the place behind its kind on, and prints the group's line.
fn run<F: Fn(usize) -> bool>(name: &[u8], text: &[u8], kind: u8, is_right: F)
    requires { F.IsAlwaysCallable is_right }
{
    let mut tally = Tally::default();
    let mut at = 0;
    while at < text.len() {
        if text[at] == kind {
            tally.hear(text, at, is_right(at + 1));
        }
        at = vectors_text::next_line(text, at);
    }
    tally.print(name);
}

fn main() {
    let mut data = vectors_text::data_room();
    let n = io::read_full(0, &mut data);
    let text = &data[..n];
    run(b"months", text, b'm', |at| dates::month(text, at));
    run(b"dates", text, b'd', |at| dates::date(text, at));
    run(b"UTF-8", text, b'u', |at| texts::utf8(text, at));
    run(b"number texts", text, b'n', |at| texts::number(text, at));
    run(b"frames", text, b'f', |at| frames::frame(text, at));
    run(
        b"single records",
        text,
        b'r',
        |at| frames::mapping(text, at),
    );
}
