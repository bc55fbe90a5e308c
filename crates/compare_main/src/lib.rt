// The compare program: reads two tables from standard input and writes every stretch in which they disagree (RULES, Requests, No. 1). Its input is
// three sections: the name count (4 bytes), the left table's intervals, the right one's.
#![tactic(auto)]

ghost use Rattle.std.specs.Prelude.{◌≡◌, ◌≤◌, length};
ghost use Rattle.standard.specs.Status.{status_number, Ends, EndsWith};
ghost use Rattle.compare_main.specs.Asked.{tables_status, status_of};

use compare_text::telling::lay_portion;
use leaves::refusal::Refusal;
use leaves_fields::fields::u32_at;
use lines::asked::{NAMES_BYTES, TABLE, table_end};
use lines::lines::{number, word};
use lines::parts::PART_HEAD;
use map_compare::compare::Lent;
use map_compare_walk::stretches::Walk;
use map_compare_walk::tables::Tables;
use map_table::interval::WIDTH;
use standard::{Failure, Status, exit_number, read_input, text_space, write_output};
use std::io::Input;

// What the program was doing where reading or writing fails.
const READING: &[u8] = b"compare: reading standard input";

const WRITING: &[u8] = b"compare: writing standard output";

// An input over this many bytes is bad.
const MOST_BYTES: usize = 3145750;

// Room for the longest input and a byte more, so that a longer one is seen.
fn input_space() -> [u8; 3145751]
    ensures { 3145751 ≡ length result }
{
    [0; 3145751]
}

// Writes the last line and answers the status.
fn say(rt: &(impl Print + Eprint), text: &[u8], status: Status) -> Result<Status, Failure>
    ensures { Ends (status_number status) result }
{
    standard::ended(rt, text, status, WRITING)
}

// Lays the line of a refusal, and answers the place behind it.
fn refused_line(text: &mut [u8], refusal: Refusal) -> usize
    requires { 105 ≤ length text.old }
    ensures { result ≤ length text.new }
{
    let a = word(text, 0, b"refused ");
    let b = number(text, a, refusal.number() as u64);
    word(text, b, b"\n")
}

// Writes the line of every stretch in which two tables disagree, portion by portion, then `end`.
fn tell_all(
    rt: &(impl Print + Eprint),
    tables: Tables<'_>,
    text: &mut [u8],
) -> Result<Status, Failure>
    requires { 105 ≤ length text.old }
    ensures { Ends 0 result }
{
    let mut walk = Walk::new(tables);
    loop {
        let end = lay_portion(&mut walk, text);
        if end == 0 {
            return say(rt, b"end\n", Status::Done);
        }
        write_output(rt, &text[..end], WRITING)?;
    }
}

// Compares two tables of which every interval is in use: their lines, or the line that refuses them.
fn compare_tables(
    rt: &(impl Print + Eprint),
    left: &[u8],
    right: &[u8],
    names: usize,
    text: &mut [u8],
) -> Result<Status, Failure>
    requires { 105 ≤ length text.old }
    ensures { Ends (tables_status left.now right.now names) result }
{
    let lent = Lent {
        left,
        left_used: left.len() / WIDTH,
        right,
        right_used: right.len() / WIDTH,
        names,
    };
    match lent.check(0) {
        Ok(tables) => tell_all(rt, tables, text),
        Err(refusal) => {
            let end = refused_line(text, refusal);
            say(rt, &text[..end], Status::Bad)
        }
    }
}

// Takes the input apart and compares, or writes only the line that says that it is bad.
fn compared(rt: &(impl Print + Eprint), input: &[u8], text: &mut [u8]) -> Result<Status, Failure>
    requires { 105 ≤ length text.old }
    ensures { Ends (status_of input.now) result }
{
    let Some(end) = table_end(input, MOST_BYTES, TABLE) else {
        return say(rt, b"bad bundle\n", Status::Bad);
    };
    let names = u32_at(input, PART_HEAD) as usize;
    let left = &input[NAMES_BYTES + PART_HEAD..end];
    let right = &input[end + PART_HEAD..];
    compare_tables(rt, left, right, names, text)
}

// Takes the input apart and compares, and answers the number to end with.
#[tactic(auto, using(standard::specs::Status::ends_with))]
fn show(rt: &(impl Print + Eprint), input: &[u8], text: &mut [u8]) -> u8
    requires { 105 ≤ length text.old }
    ensures { EndsWith (status_of input.now) result }
{
    exit_number(compared(rt, input, text))
}

// The program: compares the tables of standard input, and answers the status to end with.
pub fn compare_main(rt: &(impl Input + Print + Eprint)) -> u8 {
    let mut input = input_space();
    let mut text = text_space();
    match read_input(rt, &mut input, READING) {
        Ok(used) => show(rt, &input[..used], &mut text),
        Err(_) => Status::Failed.into(),
    }
}
