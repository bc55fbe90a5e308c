// Cases of the mapping calls: what each answers, and what it leaves of table and name list. A name list is its names and bytes in
// use, the bytes lent and the list of ends.
ghost use Rattle.std.specs.Prelude.{◌≡◌, length};
ghost use Rattle.io.specs.Counts.{IsPrefixLen};

use crate::tables::room;
use leaves::refusal::Refusal;
use leaves_names::names::{NameList, NameRoom};
use vectors_text::narrow;

// The number that has a stream, a place and a reason behind it.
const DAMAGED: u64 = 13;

// A reason that no record has.
const NO_REASON: u64 = 99;

// Room for the ends of a name list.
fn places() -> [u32; 64]
    ensures { 64 ≡ length result }
{
    [0; 64]
}

// Ends read from the text: how many, and the place after them.
#[derive(Clone, Copy)]
struct Ends {
    count: usize,
    next: usize,
}

// Reads a count and so many ends, as far as there is room.
fn ends_at(text: &[u8], at: usize, out: &mut [u32]) -> Ends
    ensures { IsPrefixLen result.count out.new }
{
    let many = vectors_text::number_at(text, at);
    let count = out.len().min(many.value as usize);
    let mut next = many.next;
    for end in &mut out[..count] {
        let one = vectors_text::number_at(text, next);
        *end = narrow(one.value);
        next = one.next;
    }
    Ends { count, next }
}

// Whether these ends stand at a place, behind their count.
fn are_ends(text: &[u8], at: usize, ends: &[u32]) -> bool {
    let many = vectors_text::number_at(text, at);
    if many.value != ends.len() as u64 {
        return false;
    }
    let mut place = many.next;
    for end in ends {
        let one = vectors_text::number_at(text, place);
        if narrow(one.value) != *end {
            return false;
        }
        place = one.next;
    }
    true
}

// What is in use of table and name list, and the place after it.
#[derive(Clone, Copy)]
struct InUse {
    used: usize,
    names: usize,
    name_bytes: usize,
    next: usize,
}

fn in_use_at(text: &[u8], at: usize) -> InUse {
    let used = vectors_text::number_at(text, at);
    let names = vectors_text::number_at(text, used.next);
    let name_bytes = vectors_text::number_at(text, names.next);
    InUse {
        used: used.value as usize,
        names: names.value as usize,
        name_bytes: name_bytes.value as usize,
        next: name_bytes.next,
    }
}

// What a call answers: the rules' number, the reason where it is 13, and what is in use of the table then.
#[derive(Clone, Copy)]
struct Said {
    number: u64,
    reason: u64,
    used: usize,
}

// The reason of damage, in stream 0 at place 0.
fn reason_of(refusal: Refusal) -> u64 {
    match refusal {
        Refusal::Damaged {
            stream: 0,
            place: 0,
            reason,
        } => reason.number(),
        _ => NO_REASON,
    }
}

// What a call answers; a refusal leaves what is in use.
fn answer_of(recorded: Result<usize, Refusal>, before: usize) -> Said {
    match recorded {
        Ok(used) => Said {
            number: 0,
            reason: NO_REASON,
            used,
        },
        Err(refusal) => Said {
            number: u64::from(refusal.number()),
            reason: reason_of(refusal),
            used: before,
        },
    }
}

// The place after the expected number of an answer, and after what 13 has behind it; 0 where the answer is another.
fn past_number(text: &[u8], at: usize, said: Said) -> usize {
    let number = vectors_text::number_at(text, at);
    if number.value != said.number {
        return 0;
    }
    if number.value != DAMAGED {
        return number.next;
    }
    let stream = vectors_text::number_at(text, number.next);
    let place = vectors_text::number_at(text, stream.next);
    let reason = vectors_text::number_at(text, place.next);
    if reason.value == said.reason {
        reason.next
    } else {
        0
    }
}

// The place after the bytes that are expected at a place, where they are these; else 0.
fn past_bytes(text: &[u8], at: usize, bytes: &[u8]) -> usize {
    let mut expected = room();
    let given = vectors_text::bytes_at(text, at, &mut expected);
    if bytes == &expected[..given.count] {
        given.next
    } else {
        0
    }
}

// Whether a name list is expected at a place.
fn is_list(text: &[u8], at: usize, list: NameList<'_>) -> bool {
    let names = vectors_text::number_at(text, at);
    let name_bytes = vectors_text::number_at(text, names.next);
    if names.value as usize != list.names || name_bytes.value as usize != list.name_bytes {
        return false;
    }
    let behind = past_bytes(text, name_bytes.next, list.bytes);
    behind != 0 && are_ends(text, behind, list.ends)
}

// Whether the answer and what the call left are as expected at a place.
fn is_expected(text: &[u8], at: usize, said: Said, table: &[u8], list: NameList<'_>) -> bool {
    let from = past_number(text, at, said);
    if from == 0 {
        return false;
    }
    let used = vectors_text::number_at(text, from);
    if used.value as usize != said.used {
        return false;
    }
    let behind = past_bytes(text, used.next, table);
    behind != 0 && is_list(text, behind, list)
}

// What follows the table of a line, of a mapping call, where the table is this one.
fn on_table<F: Fn(&mut [u8], usize, &mut NameRoom<'_>, &[u8]) -> Result<usize, Refusal>>(
    text: &[u8],
    at: usize,
    call: F,
    table: &mut [u8],
) -> bool
    requires { F.IsAlwaysCallable call }
{
    let mut bytes = room();
    let mut ends = places();
    let mut rec = room();
    let given = in_use_at(text, at);
    let names = vectors_text::bytes_at(text, given.next, &mut bytes);
    let lie = ends_at(text, names.next, &mut ends);
    let last = vectors_text::bytes_at(text, lie.next, &mut rec);
    let expected = vectors_text::past_equals(text, last.next);
    let mut list = NameRoom {
        bytes: &mut bytes[..names.count],
        ends: &mut ends[..lie.count],
        names: given.names,
        name_bytes: given.name_bytes,
    };
    let recorded = call(table, given.used, &mut list, &rec[..last.count]);
    let said = answer_of(recorded, given.used);
    is_expected(text, expected, said, table, list.list())
}

// A line `TABLE USED NAMES NAME_BYTES BYTES ENDS RECORD = NUMBER USED TABLE NAMES NAME_BYTES BYTES ENDS`, of a mapping call.
pub fn on_record<F: Fn(&mut [u8], usize, &mut NameRoom<'_>, &[u8]) -> Result<usize, Refusal>>(
    text: &[u8],
    at: usize,
    call: F,
) -> bool
    requires { F.IsAlwaysCallable call }
{
    let mut table = room();
    let lent = vectors_text::bytes_at(text, at, &mut table);
    on_table(text, lent.next, call, &mut table[..lent.count])
}
