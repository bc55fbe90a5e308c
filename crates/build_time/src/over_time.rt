// The build over time from metadata (RULES, The map over time): mappings and intervals in order, each interval an insert into a table
// that was emptied. The table stays in order, so no insert pays a check.
ghost use Rattle.std.specs.Prelude.{◌≡◌, [], ℕ, ◌*◌, ◌≤◌, length, replicate};
ghost use Rattle.std.specs.Result.{OnErr};
ghost use Rattle.leaves_names.specs.Names.{names_in};
ghost use Rattle.metadata_rules.specs.Metadata.{mapping};
ghost use Rattle.metadata_rules.specs.Words.{before, mappings_from};
ghost use Rattle.metadata_form.specs.Header.{lent};
ghost use Rattle.map_table.specs.Interval.{row_of};
ghost use Rattle.map_rules.specs.Memory.{rows, room_of};
ghost use Rattle.leaves.specs.Refusal.{answer_with};
ghost use Rattle.theory.specs.Answer.{one_value};
ghost use Rattle.build_rules.specs.Reading.{direction_by, read_by, intervals_in};
ghost use Rattle.build_rules.specs.OverTime.{give_by, step_by, dated, taken, lay_intervals, lay_mapping, lay_mappings, directed};
ghost use Rattle.build_time.specs.OverTime.{way_for, way_step, way_filled, over_time_answer, over_time_memory, over_time_rows, Holds, Took, Lays};

use build_rules::call::{lent_names, settle};
use build_rules::reading::{Direction, direction_by, intervals_at, moment_of, number_in, text_of};
use leaves::refusal::Refusal;
use leaves_names::names::{NameList, Names};
use map_table::interval::Interval;
use map_table::table::table_fits;
use map_time::insert::enter;
use metadata_form::header::Header;
use metadata_form::lists::Lists;
use metadata_words::words::{INTERVAL_WORDS, Mappings, count_at, interval_at, name_at};

// How a mapping's intervals are read: its name is their symbol, or says their instrument's number.
#[derive(Clone, Copy, Debug, PartialEq, Eq)]
pub enum Way {
    Forward(u32),
    Inverse(u32),
}

// An interval's insert, with its dates read: 11 for its start, then for its end.
#[tactic(auto, using(build_rules::specs::OverTimeLaws::dating))]
fn dated_insert(
    instrument: u32,
    symbol: u32,
    interval: metadata_rules::Interval,
) -> Result<Interval, Refusal>
    ensures { give_by row_of result ≡ dated instrument symbol interval }
{
    Ok(Interval {
        instrument,
        symbol,
        start: moment_of(interval.start)?,
        end: moment_of(interval.end)?,
    })
}

// The insert of an interval whose symbol is this text: 8 where the text says the number, then 11, 11.
#[tactic(auto, using(crate::specs::OverTimeLaws::filling))]
fn filled_insert(
    way: Way,
    interval: metadata_rules::Interval,
    text: &[u8],
) -> Result<Interval, Refusal>
    ensures { give_by row_of result ≡ way_filled way interval text.now }
{
    match way {
        Way::Forward(name) => dated_insert(number_in(text)?, name, interval),
        Way::Inverse(instrument) => dated_insert(instrument, interval.symbol, interval),
    }
}

// What an interval asks for: 3 for its symbol, the skip of an empty one, then its insert.
#[tactic(auto, using(crate::specs::OverTimeLaws::stepping))]
fn step(
    names: Names<'_>,
    way: Way,
    interval: metadata_rules::Interval,
) -> Result<Option<Interval>, Refusal>
    ensures { step_by row_of result ≡ way_step (names_in names.entry.list) way interval }
{
    let text = text_of(names, interval.symbol)?;
    if text.is_empty() {
        return Ok(None);
    }
    Ok(Some(filled_insert(way, interval, text)?))
}

// One interval: its step, taken by an insert's own order: 1, start = end, 3, 2.
#[tactic(auto, using(crate::specs::OverTimeLaws::taking))]
fn lay_interval(
    table: &mut [u8],
    used: usize,
    names: Names<'_>,
    way: Way,
    interval: metadata_rules::Interval,
) -> Result<usize, Refusal>
    requires { Holds names.list.names table.old used }
    ensures { Took names.entry.list.names (taken names.entry.list.names (room_of table.old)
        (way_step (names_in names.entry.list) way interval) (rows table.old used)) result table.new }
{
    match step(names, way, interval)? {
        Some(insert) => enter(table, used, names.list.names, insert),
        None => Ok(used),
    }
}

// The intervals of a mapping, in order.
#[tactic(auto, using(crate::specs::OverTimeLaws::laying))]
fn lay_intervals(
    table: &mut [u8],
    used: usize,
    names: Names<'_>,
    way: Way,
    intervals: &[u32],
) -> Result<usize, Refusal>
    requires { Holds names.list.names table.old used }
    ensures { (t : ℕ) → Lays names.entry.list.names (lay_intervals names.entry.list.names (room_of table.old)
        (way_step (names_in names.entry.list) way) t 0 (intervals_in intervals.now)
        (rows table.old used)) result table.new }
{
    let mut then = used;
    for k in 0..intervals.len() / INTERVAL_WORDS {
        let interval = interval_at(intervals, k);
        then = lay_interval(table, then, names, way, interval)?;
    }
    Ok(then)
}

// How the intervals of a mapping are read: inverse, its name is read first, 3, 8.
#[tactic(auto, using(crate::specs::OverTimeLaws::directing))]
fn way_of(names: Names<'_>, direction: Direction, name: u32) -> Result<Way, Refusal>
    ensures { read_by result ≡ way_for (names_in names.entry.list) direction name }
{
    match direction {
        Direction::Forward => Ok(Way::Forward(name)),
        Direction::Inverse => Ok(Way::Inverse(number_in(text_of(names, name)?)?)),
    }
}

// One mapping: inverse, its name is read before its intervals, even when it has none.
#[tactic(auto, using(crate::specs::OverTimeMappings::mapping_lays))]
fn lay_mapping(
    table: &mut [u8],
    used: usize,
    names: Names<'_>,
    direction: Direction,
    name: u32,
    intervals: &[u32],
) -> Result<usize, Refusal>
    requires { Holds names.list.names table.old used }
    ensures { (t : ℕ) → Lays names.entry.list.names (lay_mapping (room_of table.old) (names_in names.entry.list) direction t
        (mapping name (intervals_in intervals.now)) (rows table.old used)) result table.new }
{
    let way = way_of(names, direction, name)?;
    lay_intervals(table, used, names, way, intervals)
}

// The mappings, in order, onto an empty table. (The point-in-time build has this walk too: one for both would take what a mapping
// promises, and what all do, as members of a trait, and be no plainer.)
fn lay_mappings(
    table: &mut [u8],
    names: Names<'_>,
    direction: Direction,
    mappings: Mappings<'_>,
) -> Result<usize, Refusal>
    requires { Holds names.list.names table.old 0 × (2 * mappings.count ≤ length mappings.words.now)
        × (3 * before mappings.words.now mappings.count ≤ length mappings.intervals.now) }
    ensures { Lays names.entry.list.names (lay_mappings (room_of table.old) (names_in names.entry.list) direction 0
        (mappings_from mappings.entry.words.now mappings.entry.intervals.now 0 0 mappings.entry.count) []) result table.new }
{
    let mut used = 0;
    let mut from = 0;
    for t in 0..mappings.count {
        let name = name_at(mappings.words, t);
        let n = count_at(mappings.words, t);
        let intervals = intervals_at(mappings.intervals, from, n);
        used = lay_mapping(table, used, names, direction, name, intervals)?;
        from += n;
    }
    Ok(used)
}

// The build on memory of its form, onto an empty table, which a refusal leaves empty: 9, then the mappings.
fn build(
    table: &mut [u8],
    header: Header,
    lists: Lists<'_>,
    names: Names<'_>,
) -> Result<usize, Refusal>
    requires { Holds names.list.names table.old 0 × (2 * header.mappings ≤ length lists.mappings.now)
        × (3 * before lists.mappings.now header.mappings ≤ length lists.intervals.now) }
    ensures lays { Lays names.entry.list.names (directed (room_of table.old) (names_in names.entry.list)
        (mappings_from lists.entry.mappings.now lists.entry.intervals.now 0 0 header.mappings)
        (direction_by header.stype_in header.stype_out)) result table.new }
    ensures emptied { OnErr result (table.new ≡ replicate (length table.old) 0) }
{
    let direction = direction_by(header.stype_in, header.stype_out)?;
    let mappings = Mappings {
        words: lists.mappings,
        count: header.mappings,
        intervals: lists.intervals,
    };
    let laid = lay_mappings(table, names, direction, mappings);
    settle(table, laid)
}

// Builds the table over time from a metadata and a name list: 15 for all lent memory, 14 for the list, then 9, and per interval 3, the
// skip, 8, 11, 1, (start = end is done), 3, 2. What the table held is discarded; a refusal leaves an empty table with every place 0.
pub fn over_time(
    table: &mut [u8],
    header: Header,
    lists: Lists<'_>,
    list: NameList<'_>,
) -> Result<usize, Refusal>
    ensures result_value { answer_with one_value result ≡ over_time_answer table.old header (lent lists.entry)
        list.entry.bytes.now list.entry.ends.now list.entry.names list.entry.name_bytes }
    ensures table_after { table.new ≡ over_time_memory table.old header (lent lists.entry)
        list.entry.bytes.now list.entry.ends.now list.entry.names list.entry.name_bytes }
    ensures rows_after { rows table.new (length (over_time_rows table.old header (lent lists.entry)
        list.entry.bytes.now list.entry.ends.now list.entry.names list.entry.name_bytes)) ≡ over_time_rows table.old header
        (lent lists.entry) list.entry.bytes.now list.entry.ends.now list.entry.names list.entry.name_bytes }
{
    let of_form = table_fits(table.len(), 0);
    table.fill(0);
    let names = lent_names(of_form, header, lists, list)?;
    build(table, header, lists, names)
}
