// The mapping call (RULES, The map over time and Merging records): a record's bytes, a name list and a table. All is
// read and judged before anything is stored, and the name joins the list last.
ghost use Rattle.std.specs.Prelude.{◌≡◌, ℕ, Bool, true, false, List};
ghost use Rattle.theory.specs.Answer.{Answer, no_values, one_value};
ghost use Rattle.leaves.specs.Refusal.{answer_with};
ghost use Rattle.leaves.specs.Frame.{name_in};
ghost use Rattle.leaves_names.specs.Room.{named_values};
ghost use Rattle.leaves_names.specs.declared.names.NameRoom.{NameRoom};
ghost use Rattle.map_rules.specs.Memory.{check_answer};
ghost use Rattle.map_point.specs.Points.{points_checked};
ghost use Rattle.map_plan.specs.declared.planning.Store.{Store};
ghost use Rattle.map_plan.specs.Wanted.{Lies, is_new};
ghost use Rattle.map_record.specs.Kinds.{LeftOverTime, LeftAtPoint, Readies, PlanRefuses, PlanEnds, StoreRefuses, StoreEnds};
ghost use Rattle.map_record.specs.KindsLaws.{Insertable, Inserts, Settable, Sets, time_readies, time_plan_refuses, time_plan_ends, time_store_refuses, time_store_ends, point_readies, point_plan_refuses, point_plan_ends, point_store_refuses, point_store_ends};
ghost use Rattle.map_record.specs.Mapping.{TimeLeaves, PointLeaves, Joins, time_joins, point_joins};

use leaves::refusal::Refusal;
use leaves_names::names::NameRoom;
use map_plan::planning::{Store, judge};
use map_point::entries::Entry;
use map_point::points::{check_points, set_entry};
use map_table::interval::Interval;
use map_table::table::check;
use map_time::insert::place;

// The name of what was stored joins the list, if it is new.
fn join_name(room: &mut NameRoom<'_>, store: Store<'_>, rec: &[u8])
    requires { Lies room.old.bytes.now room.old.ends.now room.old.names room.old.name_bytes rec.now store }
    ensures { Joins (is_new store.entry.naming) room.old (name_in rec.now) room.new }
{
    if store.is_new() {
        room.add(store.name);
    }
}

// A kind of table that a symbol mapping is stored in.
trait Kind {
    // Whether both times of a mapping count.
    const OVER_TIME: bool;

    ghost OVER_TIME: { Bool };

    ghost checks: { List ℕ → ℕ → ℕ → Answer };

    ghost Ready: { List ℕ → ℕ → Store → Type 0 };

    ghost Stores: { List ℕ → ℕ → Store → Answer → List ℕ → Type 0 };

    ghost Left: { List ℕ → ℕ → NameRoom → List ℕ → Answer → List ℕ → NameRoom → Type 0 };

    // Whether the table is well-formed.
    fn check(table: &[u8], used: usize, names: usize) -> Result<(), Refusal>
        ensures { answer_with no_values result ≡ checks table.now used names };

    // Stores a symbol for an instrument. Answers how many are in use then.
    fn store(table: &mut [u8], used: usize, store: Store<'_>) -> Result<usize, Refusal>
        requires { Ready table.old used store }
        ensures { Stores table.old used store.entry (answer_with one_value result) table.new };

    ghost readies: { Readies OVER_TIME checks Ready Stores Left };

    ghost plan_refuses: { PlanRefuses OVER_TIME checks Ready Stores Left };

    ghost plan_ends: { PlanEnds OVER_TIME checks Ready Stores Left };

    ghost store_refuses: { StoreRefuses OVER_TIME checks Ready Stores Left };

    ghost store_ends: { StoreEnds OVER_TIME checks Ready Stores Left };
}

// Intervals over time.
struct OverTime;

impl Kind for OverTime {
    const OVER_TIME: bool = true;

    ghost OVER_TIME = { true };

    ghost checks = { check_answer };

    ghost Ready = { Insertable };

    ghost Stores = { Inserts };

    ghost Left = { LeftOverTime };

    ghost readies = { time_readies };

    ghost plan_refuses = { time_plan_refuses };

    ghost plan_ends = { time_plan_ends };

    ghost store_refuses = { time_store_refuses };

    ghost store_ends = { time_store_ends };

    fn check(table: &[u8], used: usize, names: usize) -> Result<(), Refusal> {
        check(table, used, names)
    }

    fn store(table: &mut [u8], used: usize, store: Store<'_>) -> Result<usize, Refusal> {
        let x = Interval {
            instrument: store.instrument,
            symbol: store.number(),
            start: store.start,
            end: store.end,
        };
        place(table, used, x)
    }
}

// Entries at a point in time.
struct AtPoint;

impl Kind for AtPoint {
    const OVER_TIME: bool = false;

    ghost OVER_TIME = { false };

    ghost checks = { points_checked };

    ghost Ready = { Settable };

    ghost Stores = { Sets };

    ghost Left = { LeftAtPoint };

    ghost readies = { point_readies };

    ghost plan_refuses = { point_plan_refuses };

    ghost plan_ends = { point_plan_ends };

    ghost store_refuses = { point_store_refuses };

    ghost store_ends = { point_store_ends };

    fn check(table: &[u8], used: usize, names: usize) -> Result<(), Refusal> {
        check_points(table, used, names)
    }

    fn store(table: &mut [u8], used: usize, store: Store<'_>) -> Result<usize, Refusal> {
        let x = Entry {
            instrument: store.instrument,
            symbol: store.number(),
        };
        set_entry(table, used, x)
    }
}

// A record's bytes on a table of a kind: a symbol mapping is stored, and a new name joins the list.
fn record<K: Kind>(
    table: &mut [u8],
    used: usize,
    room: &mut NameRoom<'_>,
    rec: &[u8],
) -> Result<usize, Refusal>
    ensures { K.Left table.old used room.old rec.now (answer_with (named_values room.new) result) table.new room.new }
{
    let checked = K::check(table, used, room.names);
    let Some(store) = judge(checked, room.list(), rec, K::OVER_TIME)? else {
        return Ok(used);
    };
    let used = K::store(table, used, store)?;
    join_name(room, store, rec);
    Ok(used)
}

// A record's bytes on a table over time: a symbol mapping inserts its interval, and a new name joins the list. Answers how many
// intervals are in use then.
pub fn on_record(
    table: &mut [u8],
    used: usize,
    room: &mut NameRoom<'_>,
    rec: &[u8],
) -> Result<usize, Refusal>
    ensures leaves { TimeLeaves table.old used room.old.bytes.now room.old.ends.now room.old.names room.old.name_bytes rec.now
        (answer_with (named_values room.new) result) table.new room.new.bytes.now room.new.ends.now }
    ensures joins { Joins (time_joins table.old used room.old rec.now) room.old (name_in rec.now) room.new }
{
    record::<OverTime>(table, used, room, rec)
}

// A record's bytes on a point-in-time table: a symbol mapping sets its instrument's entry, and a new name joins the list. Answers
// how many entries are in use then.
pub fn on_record_point(
    table: &mut [u8],
    used: usize,
    room: &mut NameRoom<'_>,
    rec: &[u8],
) -> Result<usize, Refusal>
    ensures leaves { PointLeaves table.old used room.old.bytes.now room.old.ends.now room.old.names room.old.name_bytes rec.now
        (answer_with (named_values room.new) result) table.new room.new.bytes.now room.new.ends.now }
    ensures joins { Joins (point_joins table.old used room.old rec.now) room.old (name_in rec.now) room.new }
{
    record::<AtPoint>(table, used, room, rec)
}
