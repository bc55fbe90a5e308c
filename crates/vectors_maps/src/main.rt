// Runs the cases that stand on standard input over the maps, and prints a line for each kind of them. The data itself says
// what a line means; a case that is answered otherwise than expected is printed.
#![tactic(auto)]

mod mappings;
mod points;
mod tables;

use map_point::points::check_points;
use map_record::mapping::{on_record, on_record_point};
use map_table::table::check;
use vectors_text::run_group;

fn main() {
    let mut data = vectors_text::data_room();
    let n = io::read_full(0, &mut data);
    let text = &data[..n];
    run_group(text, b"check", |at| tables::check(text, at, check));
    run_group(text, b"insert", |at| tables::insert(text, at));
    run_group(text, b"get_for_ts", |at| tables::get_for_ts(text, at));
    run_group(
        text,
        b"check_point",
        |at| tables::check(text, at, check_points),
    );
    run_group(text, b"get_point", |at| points::get(text, at));
    run_group(
        text,
        b"on_record",
        |at| mappings::on_record(text, at, on_record),
    );
    run_group(
        text,
        b"on_record_point",
        |at| mappings::on_record(text, at, on_record_point),
    );
}
