// The mappings of a metadata, one after the other, onto an empty point-in-time table (RULES, The map over time, 18): each sets its
// entry, and a later entry for one instrument replaces the earlier one.
ghost use Rattle.std.specs.Prelude.{[], ◌*◌, ◌/◌, ◌≤◌, length};
ghost use Rattle.leaves_names.specs.Names.{names_in};
ghost use Rattle.map_point.specs.Entries.{entries};
ghost use Rattle.metadata_rules.specs.Metadata.{mapping};
ghost use Rattle.metadata_rules.specs.Words.{before, mappings_from};
ghost use Rattle.build_rules.specs.Reading.{intervals_in};
ghost use Rattle.build_rules.specs.PointInTime.{pick_mapping, pick_mappings};
ghost use Rattle.build_point.specs.Mappings.{Clean, Picked, Laid};

use crate::begin::Start;
use build_entry::entry::entry_of_mapping;
use build_rules::reading::intervals_at;
use leaves::refusal::Refusal;
use leaves_names::names::Names;
use map_point::points::set_entry;
use metadata_words::words::{Mappings, count_at, name_at};

// One mapping's entry, if any, set in a table whose other places hold 0.
#[tactic(auto, using(crate::specs::Mappings::storing))]
fn lay_mapping(
    table: &mut [u8],
    used: usize,
    names: Names<'_>,
    start: Start,
    name: u32,
    intervals: &[u32],
) -> Result<usize, Refusal>
    requires { Clean (length table.old) table.old used }
    ensures { Picked (length table.old) (pick_mapping (length table.old / 8) (names_in names.entry.list) start.direction start.day
        (mapping name (intervals_in intervals.now)) (entries table.old used)) result table.new }
{
    match entry_of_mapping(intervals, names, start.direction, start.day, name)? {
        Some(entry) => set_entry(table, used, entry),
        None => Ok(used),
    }
}

// The mappings onto a table that holds 0 everywhere. A helper: mappings and intervals stand in their lists. After a
// refusal the table holds what was set before. (The build over time has this walk too, and says why.)
#[tactic(auto, using(crate::specs::Mappings::going))]
pub fn lay_mappings(
    table: &mut [u8],
    names: Names<'_>,
    start: Start,
    mappings: Mappings<'_>,
) -> Result<usize, Refusal>
    requires clean { Clean (length table.old) table.old 0 }
    requires count_in_bounds { (2 * mappings.count ≤ length mappings.words.now)
        × (3 * before mappings.words.now mappings.count ≤ length mappings.intervals.now) }
    ensures { Laid (length table.old) (pick_mappings (length table.old / 8) (names_in names.entry.list)
        start.direction start.day 0 (mappings_from mappings.entry.words.now mappings.entry.intervals.now 0 0 mappings.entry.count) []) result table.new }
{
    let mut used = 0;
    let mut from = 0;
    for i in 0..mappings.count {
        let name = name_at(mappings.words, i);
        let n = count_at(mappings.words, i);
        let intervals = intervals_at(mappings.intervals, from, n);
        used = lay_mapping(table, used, names, start, name, intervals)?;
        from += n;
    }
    Ok(used)
}
