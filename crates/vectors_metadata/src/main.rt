// Runs the cases that stand on standard input over the metadata merge, and prints a line for each kind of them. The data
// itself says what a line means; a case that is answered otherwise than expected is printed.
#![tactic(auto)]

mod calls;

use crate::calls::is_right;
use vectors_text::run_group;

fn main() {
    let mut data = vectors_text::data_room();
    let n = io::read_full(0, &mut data);
    let text = &data[..n];
    run_group(text, b"merge", |at| is_right(text, at));
    run_group(text, b"dbn_merge", |at| is_right(text, at));
    run_group(text, b"limit_merge", |at| is_right(text, at));
}
