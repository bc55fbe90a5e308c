// What both builds read of a metadata (RULES, The map over time): the direction, a name's text, an instrument's number, a date.
ghost use Rattle.std.specs.Prelude.{◌≡◌, ◌+◌, ◌*◌, ◌≤◌, length};
ghost use Rattle.leaves_names.specs.Names.{names_in};
ghost use Rattle.metadata_rules.specs.Words.{stretch};
ghost use Rattle.build_rules.specs.Reading.{direction_by, text_of, number_in, moment_in, read_by, text_by, intervals_in};

use leaves::refusal::Refusal;
use leaves_days::days::{day_of, day_start};
use leaves_names::names::Names;
use leaves_text::number_text::number;
use metadata_words::words::INTERVAL_WORDS;

// Where the instrument's number stands: in the interval's symbol, or in the mapping's name.
#[derive(Clone, Copy, Debug, PartialEq, Eq)]
pub enum Direction {
    Forward,
    Inverse,
}

// DBN's number for instrument ID.
const INSTRUMENT_ID: u8 = 0;

// A metadata's direction, or 9.
#[tactic(auto, unfolding(crate::specs::Reading::direction_by))]
pub fn direction_by(stype_in: u8, stype_out: u8) -> Result<Direction, Refusal>
    ensures { read_by result ≡ direction_by stype_in stype_out }
{
    if stype_out == INSTRUMENT_ID {
        Ok(Direction::Forward)
    } else if stype_in == INSTRUMENT_ID {
        Ok(Direction::Inverse)
    } else {
        Err(Refusal::NoInstrumentId)
    }
}

// The text of a name that is looked at, or 3.
#[tactic(auto, using(crate::specs::ReadingLaws::text_got))]
pub fn text_of<'a>(names: Names<'a>, name: u32) -> Result<&'a [u8], Refusal>
    ensures { text_by result ≡ text_of (names_in names.entry.list) name }
{
    names.get(name).ok_or(Refusal::UnknownSymbol)
}

// The instrument's number that a text says, or 8.
pub fn number_in(text: &[u8]) -> Result<u32, Refusal>
    ensures { read_by result ≡ number_in text.now }
{
    number(text).map_err(|_| Refusal::NotNumber)
}

// The start of a date's day, or 11.
#[tactic(auto, using(crate::specs::ReadingLaws::moments))]
pub fn moment_of(date: u32) -> Result<u64, Refusal>
    ensures { read_by result ≡ moment_in date }
{
    day_start(day_of(date)?)
}

// The words of `count` intervals from the place `from` on. A helper: they stand in the list.
#[tactic(auto, using(crate::specs::ReadingLaws::intervals_of))]
pub fn intervals_at(intervals: &[u32], from: usize, count: usize) -> &[u32]
    requires { 3 * (from + count) ≤ length intervals.now }
    ensures { intervals_in result.now ≡ stretch intervals.now from count }
{
    &intervals[INTERVAL_WORDS * from..INTERVAL_WORDS * (from + count)]
}
