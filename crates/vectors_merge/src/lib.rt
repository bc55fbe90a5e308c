// What the programs over merges of streams share: streams and hints read from a case, and answers printed.
#![tactic(auto)]

pub mod runs;

ghost use Rattle.std.specs.Prelude.{◌≡◌, ◌<◌, length};
ghost use Rattle.io.specs.Counts.{IsPrefixLen};

use leaves::refusal::Refusal;
use records::merge::Record;

// Numbers read from the text: how many, and the place after them.
#[derive(Clone, Copy, Debug, PartialEq, Eq)]
pub struct Numbers {
    pub count: usize,
    pub next: usize,
}

// Too few places for marks.
pub fn few_bytes() -> [u8; 255]
    ensures { 255 ≡ length result }
{
    [0; 255]
}

// Room for a buffer.
pub fn buffer_space() -> [u8; 4096]
    ensures { 4096 ≡ length result }
{
    [0; 4096]
}

// Room for cuts, and for hints.
pub fn numbers_space() -> [u64; 300]
    ensures { 300 ≡ length result }
{
    [0; 300]
}

// Reads a count and so many numbers, as far as there is room.
pub fn read_numbers(text: &[u8], at: usize, out: &mut [u64]) -> Numbers
    ensures { IsPrefixLen result.count out.new }
{
    let many = vectors_text::number_at(text, at);
    let count = many.value.min(out.len() as u64) as usize;
    let mut next = many.next;
    for number in &mut out[..count] {
        let one = vectors_text::number_at(text, next);
        *number = one.value;
        next = one.next;
    }
    Numbers { count, next }
}

// So many of a list, or none where it has fewer.
pub fn front<T>(many: u64, list: &[T]) -> &[T] {
    list.get(..many as usize).unwrap_or(&list[..0])
}

// A case as it was read: how many numbers of its two lists and how many bytes.
#[derive(Clone, Copy, Debug, PartialEq, Eq)]
pub struct Case {
    pub first: usize,
    pub second: usize,
    pub bytes: usize,
}

// Reads the case at a place: two lists of numbers and a buffer, as far as there is room.
pub fn read_case(
    text: &[u8],
    at: usize,
    one: &mut [u64],
    two: &mut [u64],
    buffer: &mut [u8],
) -> Case
    ensures { IsPrefixLen result.first one.new × IsPrefixLen result.second two.new × IsPrefixLen result.bytes buffer.new }
{
    let first = read_numbers(text, at, one);
    let second = read_numbers(text, first.next, two);
    let bytes = vectors_text::bytes_at(text, second.next, buffer);
    Case {
        first: first.count,
        second: second.count,
        bytes: bytes.count,
    }
}

// Prints the rest of the line that a place stands in.
pub fn print_line(text: &[u8], at: usize) {
    let from = vectors_text::past_blanks(text, at);
    let to = vectors_text::line_end(text, from);
    if to <= text.len() {
        io::write_all(1, &text[from..to]);
        io::write_all(1, b"\n");
    }
}

pub fn print_number(n: u64) {
    io::write_all(1, b" ");
    io::print_decimal(1, n);
}

fn print_record(record: Record) {
    io::write_all(1, b"record");
    print_number(record.stream);
    print_number(record.place);
    print_number(record.length as u64);
    print_number(record.kind as u64);
    print_number(record.instrument as u64);
    print_number(record.time);
    io::write_all(1, b"\n");
}

// Prints a refusal's number, and of damage stream, place and reason.
pub fn print_refusal(refusal: Refusal) {
    io::print_decimal(1, refusal.number() as u64);
    if let Refusal::Damaged {
        stream,
        place,
        reason,
    } = refusal
    {
        print_number(stream);
        print_number(place);
        print_number(reason.number());
    }
    io::write_all(1, b"\n");
}

// Prints an answer, and answers whether it is the end.
pub fn print_turn(answer: Result<Option<Record>, Refusal>) -> bool {
    match answer {
        Ok(Some(record)) => print_record(record),
        Ok(None) => {
            io::write_all(1, b"end\n");
        }
        Err(refusal) => print_refusal(refusal),
    }
    matches!(answer, Ok(None))
}

// No case has more calls.
const MOST_CALLS: u64 = 1000;

// How many calls may come after an opening; a refusal is printed, and none comes.
pub fn calls_after(opening: Result<usize, Refusal>) -> u64 {
    match opening {
        Ok(_) => MOST_CALLS,
        Err(refusal) => {
            print_refusal(refusal);
            0
        }
    }
}

// How many calls may still come after one of so many: behind the first end one more.
pub fn calls_left(calls: u64, ended: bool) -> u64
    ensures { 0 < calls → result < calls }
{
    if calls <= 1 {
        return 0;
    }
    if ended { 1 } else { calls - 1 }
}
