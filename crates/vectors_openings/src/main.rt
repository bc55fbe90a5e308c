// Runs the cases that stand on standard input over opening and finishing a metadata, and prints a line for each kind of them.
// The data itself says what a line means; a case that is answered otherwise than expected is printed.
#![tactic(auto)]

mod calls;

use crate::calls::{Call, is_right};
use vectors_text::run_group;

fn main() {
    let mut data = vectors_text::data_room();
    let n = io::read_full(0, &mut data);
    let text = &data[..n];
    run_group(text, b"open", |at| is_right(text, at, Call::Open));
    run_group(text, b"finish", |at| is_right(text, at, Call::Finish));
    run_group(text, b"dbn_open", |at| is_right(text, at, Call::Open));
    run_group(text, b"limit_open", |at| is_right(text, at, Call::Open));
    run_group(text, b"limit_finish", |at| is_right(text, at, Call::Finish));
}
