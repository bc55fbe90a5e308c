// The entry that a mapping sets (RULES, The map over time, 18): of the interval that counts, 3 for its symbol, the skip, 3 for the
// mapping's name, 8.
ghost use Rattle.std.specs.Prelude.{◌≡◌};
ghost use Rattle.leaves_names.specs.Names.{names_in};
ghost use Rattle.build_rules.specs.Reading.{intervals_in};
ghost use Rattle.build_rules.specs.OverTime.{give_by, step_by};
ghost use Rattle.build_rules.specs.PointInTime.{counts, counting, point_step, name_step};

use crate::counted::first_covering;
use build_rules::reading::{Direction, number_in, text_of};
use leaves::refusal::Refusal;
use leaves_names::names::Names;
use map_point::entries::Entry;
use metadata_rules::Interval;

// The entry of a symbol's text and a mapping's name, in the metadata's direction: 3 for the name, 8.
#[tactic(auto, using(crate::specs::Entry::naming))]
fn entry_named(
    names: Names<'_>,
    direction: Direction,
    name: u32,
    symbol: u32,
    text: &[u8],
) -> Result<Entry, Refusal>
    ensures { give_by (λ x. x) result ≡ name_step (names_in names.entry.list) direction name symbol text.now }
{
    let mapped = text_of(names, name)?;
    match direction {
        Direction::Forward => Ok(Entry {
            instrument: number_in(text)?,
            symbol: name,
        }),
        Direction::Inverse => Ok(Entry {
            instrument: number_in(mapped)?,
            symbol,
        }),
    }
}

// The entry of the interval that counts: 3 for its symbol, and an empty one is skipped.
#[tactic(auto, using(crate::specs::Entry::looking))]
fn entry_unless_empty(
    names: Names<'_>,
    direction: Direction,
    name: u32,
    interval: Interval,
) -> Result<Option<Entry>, Refusal>
    ensures { step_by (λ x. x) result ≡ point_step (names_in names.entry.list) direction name (counts 0 interval) }
{
    let text = text_of(names, interval.symbol)?;
    if text.is_empty() {
        return Ok(None);
    }
    Ok(Some(entry_named(names, direction, name, interval.symbol, text)?))
}

// The entry that a mapping sets for a day, if any.
#[tactic(auto, using(crate::specs::Entry::finding))]
pub fn entry_of_mapping(
    intervals: &[u32],
    names: Names<'_>,
    direction: Direction,
    day: u32,
    name: u32,
) -> Result<Option<Entry>, Refusal>
    ensures { step_by (λ x. x) result ≡ point_step (names_in names.entry.list) direction name (counting day 0 (intervals_in intervals.now)) }
{
    match first_covering(intervals, day) {
        Err(_) => Err(Refusal::NoDate),
        Ok(None) => Ok(None),
        Ok(Some((_, interval))) => entry_unless_empty(names, direction, name, interval),
    }
}
