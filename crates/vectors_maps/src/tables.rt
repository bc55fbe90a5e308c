// Cases of check, of either table, and of insert and get_for_ts, over time.
ghost use Rattle.std.specs.Prelude.{◌≡◌, length};

use leaves::refusal::Refusal;
use map_look::cursor::follow_once;
use map_look::lookup::{Looked, get_for_ts as look_up};
use map_table::interval::Interval;
use vectors_text::narrow;

// Room for the lent bytes of one case.
pub fn room() -> [u8; 2048]
    ensures { 2048 ≡ length result }
{
    [0; 2048]
}

// What is in use of a table, the names, and the number that its check is expected to answer.
#[derive(Clone, Copy)]
struct Checking {
    used: usize,
    names: usize,
    number: u64,
}

fn checking_at(text: &[u8], at: usize) -> Checking {
    let used = vectors_text::number_at(text, at);
    let names = vectors_text::number_at(text, used.next);
    let number = vectors_text::number_at(text, vectors_text::past_equals(text, names.next));
    Checking {
        used: used.value as usize,
        names: names.value as usize,
        number: number.value,
    }
}

// The number of an answer: 0 where it is done, else the refusal's.
pub fn number_of<T>(answer: &Result<T, Refusal>) -> u64 {
    match answer {
        Ok(_) => 0,
        Err(refusal) => u64::from(refusal.number()),
    }
}

// A line `TABLE USED NAMES = NUMBER`, of a check.
pub fn check<F: Fn(&[u8], usize, usize) -> Result<(), Refusal>>(
    text: &[u8],
    at: usize,
    check: F,
) -> bool
    requires { F.IsAlwaysCallable check }
{
    let mut table = room();
    let given = vectors_text::bytes_at(text, at, &mut table);
    let asked = checking_at(text, given.next);
    number_of(&check(&table[..given.count], asked.used, asked.names)) == asked.number
}

// An insert, and what it is expected to answer.
#[derive(Clone, Copy)]
struct Asked {
    used: usize,
    names: usize,
    interval: Interval,
    number: u64,
    used_after: usize,
    next: usize,
}

fn interval_at(text: &[u8], at: usize) -> Interval {
    let instrument = vectors_text::number_at(text, at);
    let start = vectors_text::number_at(text, instrument.next);
    let end = vectors_text::number_at(text, start.next);
    let symbol = vectors_text::number_at(text, end.next);
    Interval {
        instrument: narrow(instrument.value),
        symbol: narrow(symbol.value),
        start: start.value,
        end: end.value,
    }
}

fn asked_at(text: &[u8], at: usize) -> Asked {
    let used = vectors_text::number_at(text, at);
    let names = vectors_text::number_at(text, used.next);
    let interval = interval_at(text, names.next);
    let number = vectors_text::number_at(text, vectors_text::past_equals(text, names.next));
    let used_after = vectors_text::number_at(text, number.next);
    Asked {
        used: used.value as usize,
        names: names.value as usize,
        interval,
        number: number.value,
        used_after: used_after.value as usize,
        next: used_after.next,
    }
}

// Whether the insert answers as expected, and leaves the lent bytes as expected.
fn inserts(table: &mut [u8], asked: Asked, after: &[u8]) -> bool {
    let inserted = map_time::insert::insert(table, asked.used, asked.names, asked.interval);
    let used = inserted.unwrap_or(asked.used_after);
    number_of(&inserted) == asked.number && used == asked.used_after && &*table == after
}

// A line `TABLE USED NAMES INSTRUMENT START END SYMBOL = NUMBER USED TABLE`.
pub fn insert(text: &[u8], at: usize) -> bool {
    let mut before = room();
    let mut after = room();
    let given = vectors_text::bytes_at(text, at, &mut before);
    let asked = asked_at(text, given.next);
    let expected = vectors_text::bytes_at(text, asked.next, &mut after);
    inserts(&mut before[..given.count], asked, &after[..expected.count])
}

// What a lookup is expected to find, and the place after it.
#[derive(Clone, Copy)]
pub struct Expected {
    number: u64,
    found: u64,
    symbol: u64,
    next: usize,
}

pub fn expected_at(text: &[u8], at: usize) -> Expected {
    let number = vectors_text::number_at(text, vectors_text::past_equals(text, at));
    let found = vectors_text::number_at(text, number.next);
    let symbol = vectors_text::number_at(text, found.next);
    Expected {
        number: number.value,
        found: found.value,
        symbol: symbol.value,
        next: symbol.next,
    }
}

// Whether a lookup found what is expected.
pub fn is_found(found: Result<Option<u32>, Refusal>, expected: Expected) -> bool {
    if number_of(&found) != expected.number {
        return false;
    }
    match found {
        Ok(Some(symbol)) => expected.found == 1 && expected.symbol == u64::from(symbol),
        Ok(None) => expected.found == 0,
        Err(_) => true,
    }
}

// A lookup, and what it is expected to answer.
#[derive(Clone, Copy)]
struct Lookup {
    used: usize,
    instrument: u32,
    moment: u64,
    hint: u64,
    expected: Expected,
    hint_after: u64,
}

fn lookup_at(text: &[u8], at: usize) -> Lookup {
    let used = vectors_text::number_at(text, at);
    let instrument = vectors_text::number_at(text, used.next);
    let moment = vectors_text::number_at(text, instrument.next);
    let hint = vectors_text::number_at(text, moment.next);
    let expected = expected_at(text, hint.next);
    let after = vectors_text::number_at(text, expected.next);
    Lookup {
        used: used.value as usize,
        instrument: narrow(instrument.value),
        moment: moment.value,
        hint: hint.value,
        expected,
        hint_after: after.value,
    }
}

// Whether a lookup answered as expected.
fn is_expected(looked: Looked, asked: Lookup) -> bool {
    looked.hint == asked.hint_after && is_found(looked.found, asked.expected)
}

// Whether the lookup answers as expected, and so a cursor with the same hint.
fn looks(table: &[u8], asked: Lookup) -> bool {
    let looked = look_up(
        table,
        asked.used,
        asked.instrument,
        asked.moment,
        asked.hint,
    );
    let followed = follow_once(
        table,
        asked.used,
        asked.instrument,
        asked.moment,
        asked.hint,
    );
    is_expected(looked, asked) && is_expected(followed, asked)
}

// A line `TABLE USED INSTRUMENT MOMENT HINT = NUMBER FOUND SYMBOL HINT`.
pub fn get_for_ts(text: &[u8], at: usize) -> bool {
    let mut table = room();
    let given = vectors_text::bytes_at(text, at, &mut table);
    looks(&table[..given.count], lookup_at(text, given.next))
}
