// Inserts into the table over time (RULES, The map over time).
ghost use Rattle.std.specs.Prelude.{◌≡◌, ◌+◌, ◌*◌, ◌-◌, ◌≤◌, ◌<◌, length};
ghost use Rattle.theory.specs.Answer.{one_value};
ghost use Rattle.leaves.specs.Refusal.{answer_with};
ghost use Rattle.map_rules.specs.Table.{Ordered, insert_rows, if_room, entered};
ghost use Rattle.map_rules.specs.Memory.{same_value, known_value, width, row_at, rows, room_of, insert_outcome, Gives};
ghost use Rattle.map_rules.specs.Pieces.{left_count, right_count, joined_start, joined_end, left_row, right_row};
ghost use Rattle.map_table.specs.Interval.{row_of};
ghost use Rattle.map_moves.specs.Pieces.{IsPiece};

use leaves::refusal::Refusal;
use map_moves::moves::{clear, count, replace};
use map_moves::search::{find, pass};
use map_table::interval::{Interval, WIDTH, interval_at, same_value};
use map_table::table::check;

// What is left of x before n, which touches it first.
fn left_of(n: Interval, x: Interval) -> Option<Interval>
    ensures { IsPiece result (left_count (row_of n) (row_of x)) (left_row (row_of n) (row_of x)) }
{
    if x.start < n.start && !same_value(x, n) {
        Some(Interval {
            instrument: n.instrument,
            end: n.start,
            ..x
        })
    } else {
        None
    }
}

// What is left of z after n, which touches it last.
fn right_of(n: Interval, z: Interval) -> Option<Interval>
    ensures { IsPiece result (right_count (row_of n) (row_of z)) (right_row (row_of n) (row_of z)) }
{
    if n.end < z.end && !same_value(n, z) {
        Some(Interval {
            instrument: n.instrument,
            start: n.end,
            ..z
        })
    } else {
        None
    }
}

// Where n starts once it is joined to x.
fn joined_start(n: Interval, x: Interval) -> u64
    ensures { result ≡ joined_start (row_of n) (row_of x) }
{
    if x.start < n.start && same_value(x, n) {
        x.start
    } else {
        n.start
    }
}

// Where n ends once it is joined to z.
fn joined_end(n: Interval, z: Interval) -> u64
    ensures { result ≡ joined_end (row_of n) (row_of z) }
{
    if n.end < z.end && same_value(n, z) {
        z.end
    } else {
        n.end
    }
}

// The first and the last of the intervals from lo up to hi, or n for both where there is none.
fn touched(table: &[u8], lo: usize, hi: usize, n: Interval) -> (Interval, Interval)
    requires { hi * width ≤ length table.now }
    ensures first { (lo < hi → row_of result.0 ≡ row_at table.now lo) × (hi ≤ lo → row_of result.0 ≡ row_of n) }
    ensures last { (lo < hi → row_of result.1 ≡ row_at table.now (hi - 1)) × (hi ≤ lo → row_of result.1 ≡ row_of n) }
{
    if lo < hi {
        (interval_at(table, lo), interval_at(table, hi - 1))
    } else {
        (n, n)
    }
}

// Overwrites the stretch of n, which is not empty, in a table that is in order: done, or refused by 2.
pub fn place(table: &mut [u8], used: usize, n: Interval) -> Result<usize, Refusal>
    requires { (length table.old ≡ room_of table.old * width) × (used ≤ room_of table.old) × ((row_of n).start < (row_of n).end) × Ordered (rows table.old used) }
    ensures { Gives (if_room (room_of table.old) (insert_rows same_value (row_of n) (rows table.old used))) table.old used (answer_with one_value result) table.new }
{
    let room = table.len() / WIDTH;
    let lo = find(table, used, n);
    let hi = pass(table, used, lo, n);
    let (x, z) = touched(table, lo, hi, n);
    let left = left_of(n, x);
    let right = right_of(n, z);
    let total = lo + count(left) + 1 + count(right) + (used - hi);
    if room < total {
        return Err(Refusal::NoRoom);
    }
    let core = Interval {
        start: joined_start(n, x),
        end: joined_end(n, z),
        ..n
    };
    replace(table, used, lo, hi, left, core, right);
    clear(table, total, used);
    Ok(total)
}

// An insert into a table that is in order, by its own order: 1; start = end is done and changes nothing; 3; 2.
pub fn enter(table: &mut [u8], used: usize, names: usize, n: Interval) -> Result<usize, Refusal>
    requires { (length table.old ≡ room_of table.old * width) × (used ≤ room_of table.old) × Ordered (rows table.old used) }
    ensures { Gives (entered same_value known_value names (room_of table.old) (row_of n) (rows table.old used)) table.old used (answer_with one_value result) table.new }
{
    if n.end < n.start {
        Err(Refusal::Reversed)
    } else if n.start == n.end {
        Ok(used)
    } else if (n.symbol as usize) < names {
        place(table, used, n)
    } else {
        Err(Refusal::UnknownSymbol)
    }
}

// Inserts n into the table with `used` intervals, where so many names are known: 15, 14, then as `enter`.
pub fn insert(table: &mut [u8], used: usize, names: usize, n: Interval) -> Result<usize, Refusal>
    ensures { Gives (insert_outcome table.old used names (row_of n)) table.old used (answer_with one_value result) table.new }
{
    check(table, used, names)?;
    enter(table, used, names, n)
}
