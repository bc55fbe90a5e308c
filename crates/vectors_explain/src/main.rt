// Runs the cases of explanations that stand on standard input, and prints how many there were and how many of them were answered
// otherwise than expected; each of those is printed. The data itself says what a line means.
#![tactic(auto)]

ghost use Rattle.std.specs.Prelude.{◌≡◌, length};

use leaves::refusal::Refusal;
use map_explain::explain::{Explained, Named};

// Room for the lent bytes of one case.
fn room() -> [u8; 256]
    ensures { 256 ≡ length result }
{
    [0; 256]
}

// A number of 32 bits; a greater one becomes 0.
fn narrow(n: u64) -> u32 {
    u32::try_from(n).unwrap_or(0)
}

// What a case asks.
#[derive(Clone, Copy)]
struct Question {
    used: usize,
    names: usize,
    instrument: u32,
    moment: u64,
    next: usize,
}

fn question_at(text: &[u8], at: usize) -> Question {
    let used = vectors_text::number_at(text, at);
    let names = vectors_text::number_at(text, used.next);
    let instrument = vectors_text::number_at(text, names.next);
    let moment = vectors_text::number_at(text, instrument.next);
    Question {
        used: used.value as usize,
        names: names.value as usize,
        instrument: narrow(instrument.value),
        moment: moment.value,
        next: moment.next,
    }
}

// An expected interval, and the place behind it.
#[derive(Clone, Copy)]
struct Expected {
    index: u64,
    start: u64,
    end: u64,
    symbol: u64,
    next: usize,
}

fn expected_at(text: &[u8], at: usize) -> Expected {
    let index = vectors_text::number_at(text, at);
    let start = vectors_text::number_at(text, index.next);
    let end = vectors_text::number_at(text, start.next);
    let symbol = vectors_text::number_at(text, end.next);
    Expected {
        index: index.value,
        start: start.value,
        end: end.value,
        symbol: symbol.value,
        next: symbol.next,
    }
}

fn is_expected(x: Named, e: Expected) -> bool {
    x.index == e.index && x.start == e.start && x.end == e.end && x.symbol as u64 == e.symbol
}

// Whether a reason is the expected one, with these intervals.
fn is_reason(explained: Explained, reason: u64, first: Expected, second: Expected) -> bool {
    match explained {
        Explained::In(x) => reason == 1 && is_expected(x, first),
        Explained::Unknown => reason == 2,
        Explained::Before(x) => reason == 3 && is_expected(x, first),
        Explained::After(x) => reason == 4 && is_expected(x, first),
        Explained::Between(x, y) => reason == 5 && is_expected(x, first) && is_expected(y, second),
    }
}

// Whether an explanation is the expected number, reason and intervals.
fn is_told(
    explained: Result<Explained, Refusal>,
    number: u64,
    reason: u64,
    first: Expected,
    second: Expected,
) -> bool {
    match explained {
        Ok(explained) => number == 0 && is_reason(explained, reason, first, second),
        Err(refusal) => number == u64::from(refusal.number()),
    }
}

// A line `TABLE USED NAMES INSTRUMENT MOMENT = NUMBER REASON` and two intervals `INDEX START END SYMBOL`, which count where the reason
// names them.
fn is_right(text: &[u8], at: usize) -> bool {
    let mut table = room();
    let t = vectors_text::bytes_at(text, at, &mut table);
    let q = question_at(text, t.next);
    let number = vectors_text::number_at(text, vectors_text::past_equals(text, q.next));
    let reason = vectors_text::number_at(text, number.next);
    let first = expected_at(text, reason.next);
    let second = expected_at(text, first.next);
    let explained = map_explain::explain::explain(
        &table[..t.count],
        q.used,
        q.names,
        q.instrument,
        q.moment,
    );
    is_told(explained, number.value, reason.value, first, second)
}

fn main() {
    let mut data = vectors_text::data_room();
    let n = io::read_full(0, &mut data);
    let text = &data[..n];
    vectors_text::run_group(text, b"explain", |at| is_right(text, at));
}
