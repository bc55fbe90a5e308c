// One side of a case: a metadata in lent memory, read from the text, and compared with what stands there. It is written as
// the header's ten numbers, its four counts, and five lists; a list as the places lent, how many of them are given, and
// those, or the rule that makes them: the others hold 0.
#![tactic(auto)]

pub mod expected;
mod rule;

ghost use Rattle.std.specs.Prelude.{◌≤◌, ◌<◌, length};
ghost use Rattle.metadata_form.specs.Header.{lent, lent_mut, SameLoans};
ghost use Rattle.vectors_side.specs.Sides.{Within};

use crate::rule::{Rule, made, rule_at};
use metadata_form::header::Header;
use metadata_form::lists::{Lists, ListsMut};
use vectors_text::{Token, narrow};

// A side: its header, the places lent of each list, and the place behind it in the text.
#[derive(Clone, Copy, Debug, PartialEq, Eq)]
pub struct Side {
    pub header: Header,
    pub symbols: usize,
    pub partial: usize,
    pub not_found: usize,
    pub mappings: usize,
    pub intervals: usize,
    pub next: usize,
}

impl Side {
    // The lent part of the lists that hold the side.
    pub fn part<'a>(self, lists: Lists<'a>) -> Lists<'a>
        requires { Within self (lent lists) }
    {
        Lists {
            symbols: &lists.symbols[..self.symbols],
            partial: &lists.partial[..self.partial],
            not_found: &lists.not_found[..self.not_found],
            mappings: &lists.mappings[..self.mappings],
            intervals: &lists.intervals[..self.intervals],
        }
    }
}

// A header read from the text, and the place behind it.
#[derive(Clone, Copy, Debug, PartialEq, Eq)]
struct Headed {
    header: Header,
    next: usize,
}

// A list read from the text: the places lent, and the place behind it.
#[derive(Clone, Copy, Debug, PartialEq, Eq)]
pub struct Listed {
    pub places: usize,
    pub next: usize,
}

// A header's fourteen numbers, in the order of its fields; one that doesn't fit its field becomes the largest.
fn header_at(text: &[u8], at: usize) -> Headed {
    let mut numbers = [0u64; 14];
    let mut next = at;
    for i in 0..14 {
        let number = vectors_text::number_at(text, next);
        numbers[i] = number.value;
        next = number.next;
    }
    let header = Header {
        version: u8::try_from(numbers[0]).unwrap_or(u8::MAX),
        dataset: narrow(numbers[1]),
        schema: u16::try_from(numbers[2]).unwrap_or(u16::MAX),
        start: numbers[3],
        end: numbers[4],
        limit: numbers[5],
        stype_in: u8::try_from(numbers[6]).unwrap_or(u8::MAX),
        stype_out: u8::try_from(numbers[7]).unwrap_or(u8::MAX),
        ts_out: numbers[8] == 1,
        symbol_cstr_len: numbers[9],
        symbols: numbers[10] as usize,
        partial: numbers[11] as usize,
        not_found: numbers[12] as usize,
        mappings: numbers[13] as usize,
    };
    Headed { header, next }
}

// So many places, or all that there are.
pub fn at_most(places: u64, all: usize) -> usize
    ensures { result ≤ all }
{
    places.min(all as u64) as usize
}

// The i-th word of a list, of which so many are given: by a rule, by the number at a place, or 0.
fn word_at(text: &[u8], at: usize, given: u64, rule: Option<Rule>, i: usize) -> Token {
    if given <= i as u64 {
        return Token { value: 0, next: at };
    }
    match rule {
        None => vectors_text::number_at(text, at),
        Some(rule) => Token {
            value: made(rule, i),
            next: at,
        },
    }
}

// Reads a list into out, as many places of it as are lent.
pub fn list_at(text: &[u8], at: usize, out: &mut [u32]) -> Listed
    ensures { result.places ≤ length out.new }
{
    let lent = vectors_text::number_at(text, at);
    let given = vectors_text::number_at(text, lent.next);
    let ruled = rule_at(text, given.next);
    let places = at_most(lent.value, out.len());
    let mut next = ruled.next;
    for i in 0..places {
        let word = word_at(text, next, given.value, ruled.rule, i);
        out[i] = narrow(word.value);
        next = word.next;
    }
    Listed { places, next }
}

// Reads the side at a place.
pub fn side_at(text: &[u8], at: usize, lists: &mut ListsMut<'_>) -> Side
    ensures within { Within result (lent_mut lists.new) }
    ensures same_loans { SameLoans lists.old lists.new }
{
    let headed = header_at(text, at);
    let symbols = list_at(text, headed.next, lists.symbols);
    let partial = list_at(text, symbols.next, lists.partial);
    let not_found = list_at(text, partial.next, lists.not_found);
    let mappings = list_at(text, not_found.next, lists.mappings);
    let intervals = list_at(text, mappings.next, lists.intervals);
    Side {
        header: headed.header,
        symbols: symbols.places,
        partial: partial.places,
        not_found: not_found.places,
        mappings: mappings.places,
        intervals: intervals.places,
        next: intervals.next,
    }
}

// The place behind the number at a place of the text, where it is this one.
fn number_too(text: &[u8], at: usize, n: u64) -> Option<usize> {
    let number = vectors_text::number_at(text, at);
    if number.value != n {
        return None;
    }
    Some(number.next)
}

// The place behind the list at a place of the text, where it is this one, as many places of it as are lent.
pub fn list_too(text: &[u8], at: usize, list: &[u32]) -> Option<usize> {
    let lent = vectors_text::number_at(text, at);
    let given = vectors_text::number_at(text, lent.next);
    let ruled = rule_at(text, given.next);
    let mut next = ruled.next;
    for i in 0..at_most(lent.value, list.len()) {
        let word = word_at(text, next, given.value, ruled.rule, i);
        if list[i] != narrow(word.value) {
            return None;
        }
        next = word.next;
    }
    Some(next)
}

// The place behind the header at a place of the text, where it is this one.
fn header_too(text: &[u8], at: usize, header: Header) -> Option<usize> {
    let numbers = [
        u64::from(header.version),
        u64::from(header.dataset),
        u64::from(header.schema),
        header.start,
        header.end,
        header.limit,
        u64::from(header.stype_in),
        u64::from(header.stype_out),
        u64::from(header.ts_out),
        header.symbol_cstr_len,
        header.symbols as u64,
        header.partial as u64,
        header.not_found as u64,
        header.mappings as u64,
    ];
    let mut next = at;
    for n in numbers {
        next = number_too(text, next, n)?;
    }
    Some(next)
}

// The place behind the side at a place of the text, where it is this header with these lists, every place that is lent of them.
fn side_too(text: &[u8], at: usize, header: Header, lists: Lists<'_>) -> Option<usize> {
    let symbols = header_too(text, at, header)?;
    let partial = list_too(text, symbols, lists.symbols)?;
    let not_found = list_too(text, partial, lists.partial)?;
    let mappings = list_too(text, not_found, lists.not_found)?;
    let intervals = list_too(text, mappings, lists.mappings)?;
    list_too(text, intervals, lists.intervals)
}

// Whether the side at a place of the text is this header with these lists, every place that is lent of them.
pub fn is_side(text: &[u8], at: usize, header: Header, lists: Lists<'_>) -> bool {
    side_too(text, at, header, lists).is_some()
}
