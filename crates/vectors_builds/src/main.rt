// Runs the cases that stand on standard input over both builds, and prints a line for each kind of them. The data itself says
// what a line means; a case that is answered otherwise than expected is printed.
#![tactic(auto)]

mod calls;

use crate::calls::{Call, is_right};
use vectors_side::expected::interval_words;
use vectors_text::run_group;

// Room for a table over time of 65,537 places.
const TABLE_BYTES: usize = 1572888;

// Runs the lines of one kind and prints the group's line.
fn run(text: &[u8], name: &[u8], call: Call) {
    let mut table = [0; TABLE_BYTES];
    let mut intervals = interval_words();
    run_group(
        text,
        name,
        |at| is_right(text, at, call, &mut table, &mut intervals),
    );
}

fn main() {
    let mut data = vectors_text::data_room();
    let n = io::read_full(0, &mut data);
    let text = &data[..n];
    run(text, b"over_time", Call::OverTime);
    run(text, b"point_in_time", Call::PointInTime);
    run(text, b"dbn_over_time", Call::OverTime);
    run(text, b"dbn_point_in_time", Call::PointInTime);
}
