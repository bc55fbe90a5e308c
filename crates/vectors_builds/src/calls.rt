// Cases of both builds: what each answers, and every byte that the lent table then holds; before, it holds 9s. Metadata and name
// list are only read.
ghost use Rattle.std.specs.Prelude.{length};
ghost use Rattle.vectors_builds.specs.Memory.{Listed};

use build_point::build::point_in_time;
use build_time::over_time::over_time;
use leaves::refusal::Refusal;
use leaves_names::names::NameList;
use metadata_form::lists::{Lists, ListsMut};
use vectors_side::expected::{entries, mapping_words};
use vectors_side::{at_most, list_at, side_at};
use vectors_text::narrow;

// Which build: over time, or for a date, which comes first then.
#[derive(Clone, Copy, Debug, PartialEq, Eq)]
pub enum Call {
    OverTime,
    PointInTime,
}

// A name list: what is in use, the lengths of its memory, and the place behind it in the text.
#[derive(Clone, Copy, Debug)]
pub struct Names {
    pub names: usize,
    pub name_bytes: usize,
    pub bytes: usize,
    pub ends: usize,
    pub next: usize,
}

impl Names {
    // The lent part of the memory that holds the list.
    fn part<'a>(self, bytes: &'a [u8], ends: &'a [u32]) -> NameList<'a>
        requires { Listed self (length bytes.now) (length ends.now) }
    {
        NameList {
            bytes: &bytes[..self.bytes],
            ends: &ends[..self.ends],
            names: self.names,
            name_bytes: self.name_bytes,
        }
    }
}

// The bytes of a name list, one more than the rules allow; what a table in use is compared with, since no case has more bytes of it.
const LIST_BYTES: usize = 65537;

const EXPECTED_BYTES: usize = 1024;

// Reads a name list: names and bytes in use, the length of its bytes and those given, its ends. The bytes hold 0 before.
fn names_at(text: &[u8], at: usize, bytes: &mut [u8], ends: &mut [u32]) -> Names
    ensures { Listed result (length bytes.new) (length ends.new) }
{
    let names = vectors_text::number_at(text, at);
    let name_bytes = vectors_text::number_at(text, names.next);
    let lent = vectors_text::number_at(text, name_bytes.next);
    let given = vectors_text::bytes_at(text, lent.next, bytes);
    let list = list_at(text, given.next, ends);
    Names {
        names: names.value as usize,
        name_bytes: name_bytes.value as usize,
        bytes: at_most(lent.value, bytes.len()),
        ends: list.places,
        next: list.next,
    }
}

// Whether a table holds these bytes, and 0 in every place behind them.
fn holds(table: &[u8], expected: &[u8]) -> bool {
    let known = table.len().min(expected.len());
    &table[..known] == &expected[..known] && table[known..].iter().all(|byte| *byte == 0)
}

// Whether a build answers what stands at a place, and leaves the bytes that stand behind it, and 0 in every other place.
fn is_expected(text: &[u8], at: usize, built: Result<usize, Refusal>, table: &[u8]) -> bool {
    let number = vectors_text::number_at(text, at);
    let used = vectors_text::number_at(text, number.next);
    let told = match built {
        Ok(places) => number.value == 0 && used.value == places as u64,
        Err(refusal) => number.value == u64::from(refusal.number()) && used.value == 0,
    };
    let mut expected = [0; EXPECTED_BYTES];
    vectors_text::bytes_at(text, used.next, &mut expected);
    told && holds(table, &expected)
}

// A line `TABLE NAMES METADATA = NUMBER`, behind 0 the places in use and their bytes; point in time, the date comes first. Table and
// intervals have room for the longest that a case lends.
pub fn is_right(
    text: &[u8],
    at: usize,
    call: Call,
    table: &mut [u8],
    intervals: &mut [u32],
) -> bool {
    let date = vectors_text::number_at(text, at);
    let place = match call {
        Call::OverTime => at,
        Call::PointInTime => date.next,
    };
    let mut bytes = [0; LIST_BYTES];
    let mut ends = entries();
    let mut symbols = entries();
    let mut partial = entries();
    let mut not_found = entries();
    let mut mappings = mapping_words();
    let lent = vectors_text::number_at(text, place);
    let names = names_at(text, lent.next, &mut bytes, &mut ends);
    let side = side_at(
        text,
        names.next,
        &mut ListsMut {
            symbols: &mut symbols,
            partial: &mut partial,
            not_found: &mut not_found,
            mappings: &mut mappings,
            intervals,
        },
    );
    let lists = side.part(Lists {
        symbols: &symbols,
        partial: &partial,
        not_found: &not_found,
        mappings: &mappings,
        intervals,
    });
    let list = names.part(&bytes, &ends);
    let size = at_most(lent.value, table.len());
    let part = &mut table[..size];
    part.fill(9);
    let built = match call {
        Call::OverTime => over_time(part, side.header, lists, list),
        Call::PointInTime => point_in_time(part, side.header, lists, list, narrow(date.value)),
    };
    let behind = vectors_text::past_equals(text, side.next);
    is_expected(text, behind, built, part)
}
