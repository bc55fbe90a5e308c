// Runs the cases that stand on standard input over names: naming, lists of names that are well-formed and that are not, a name's place,
// and the limits. It prints how many there were and how many of them were answered otherwise than expected; each of those is printed.
// The data itself says what a line means.
#![tactic(auto)]

ghost use Rattle.std.specs.Prelude.{◌≡◌, length};

use leaves::refusal::Refusal;
use leaves_names::names::{NameList, NamePlace, NameRoom};
use vectors_side::{at_most, list_at, list_too};
use vectors_text::narrow;

// Memory for a name list: one byte and one name more than the rules allow.
const BYTES: usize = 65537;

fn list_bytes() -> [u8; 65537]
    ensures { 65537 ≡ length result }
{
    [0; 65537]
}

fn list_ends() -> [u32; 4097]
    ensures { 4097 ≡ length result }
{
    [0; 4097]
}

// Room for a name, and for the bytes that naming leaves: one more than a name may have.
fn room() -> [u8; 256]
    ensures { 256 ≡ length result }
{
    [0; 256]
}

// Whether these four numbers stand at a place: the rules' number and the values that come with it.
fn are_numbers(text: &[u8], at: usize, numbers: [u64; 4]) -> bool {
    let mut place = at;
    for number in numbers {
        let token = vectors_text::number_at(text, place);
        if token.value != number {
            return false;
        }
        place = token.next;
    }
    true
}

// A refusal's numbers.
fn of_refusal(refusal: Refusal) -> [u64; 4] {
    [refusal.number() as u64, 0, 0, 0]
}

// The numbers of a naming: the name's number, the names and the bytes in use.
fn of_named(named: Result<u32, Refusal>, names: usize, name_bytes: usize) -> [u64; 4] {
    match named {
        Ok(number) => [0, number as u64, names as u64, name_bytes as u64],
        Err(refusal) => of_refusal(refusal),
    }
}

// The numbers of a name's place: its first byte and its end.
fn of_place(placed: Result<NamePlace, Refusal>) -> [u64; 4] {
    match placed {
        Ok(place) => [0, place.first as u64, place.end as u64, 0],
        Err(refusal) => of_refusal(refusal),
    }
}

// The numbers of a check.
fn of_check(list: NameList<'_>) -> [u64; 4] {
    match list.check() {
        Ok(_) => [0; 4],
        Err(refusal) => of_refusal(refusal),
    }
}

// What follows the list of a line that names: `NAME BYTES ENDS = NUMBER VALUES`, bytes and ends as naming leaves them.
fn names_it(text: &[u8], at: usize, list: NameRoom<'_>) -> bool {
    let mut list = list;
    let mut name = room();
    let mut after = room();
    let word = vectors_text::bytes_at(text, at, &mut name);
    let named = list.number_of(&name[..word.count]);
    let left = vectors_text::bytes_at(text, word.next, &mut after);
    if &*list.bytes != &after[..left.count] {
        return false;
    }
    match list_too(text, left.next, list.ends) {
        Some(behind) => are_numbers(
            text,
            vectors_text::past_equals(text, behind),
            of_named(named, list.names, list.name_bytes),
        ),
        None => false,
    }
}

// What follows the list of a line, `NUMBER = NUMBER VALUES`: of a name's number its place; of `c`, whose first number says nothing, whether
// the list is well-formed.
fn reads_it(text: &[u8], at: usize, call: u8, list: NameList<'_>) -> bool {
    let asked = vectors_text::number_at(text, at);
    let behind = vectors_text::past_equals(text, asked.next);
    let numbers = if call == b'c' {
        of_check(list)
    } else {
        of_place(list.place_of_name(narrow(asked.value)))
    };
    are_numbers(text, behind, numbers)
}

// A line `CALL NAMES NAME_BYTES LENT BYTES ENDS`: a name list, and what follows it.
fn is_right(text: &[u8], at: usize) -> bool {
    let mut bytes = list_bytes();
    let mut ends = list_ends();
    let place = vectors_text::past_blanks(text, at);
    let call = vectors_text::byte_at(text, place);
    let names = vectors_text::number_at(text, vectors_text::past(text, place));
    let name_bytes = vectors_text::number_at(text, names.next);
    let lent = vectors_text::number_at(text, name_bytes.next);
    let given = vectors_text::bytes_at(text, lent.next, &mut bytes);
    let list = list_at(text, given.next, &mut ends);
    let e = list.places;
    let b = at_most(lent.value, BYTES);
    let names = names.value as usize;
    let name_bytes = name_bytes.value as usize;
    if call == b'n' {
        let lent = NameRoom {
            bytes: &mut bytes[..b],
            ends: &mut ends[..e],
            names,
            name_bytes,
        };
        return names_it(text, list.next, lent);
    }
    let lent = NameList {
        bytes: &bytes[..b],
        ends: &ends[..e],
        names,
        name_bytes,
    };
    reads_it(text, list.next, call, lent)
}

fn main() {
    let mut data = vectors_text::data_room();
    let n = io::read_full(0, &mut data);
    let text = &data[..n];
    vectors_text::run_group(text, b"names", |at| is_right(text, at));
}
