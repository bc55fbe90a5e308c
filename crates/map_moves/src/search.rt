// Searches in the table over time, by the side of an interval on which another lies.
ghost use Rattle.std.specs.Prelude.{◌≡◌, ◌+◌, ◌*◌, ◌≤◌, length, ltb};
ghost use Rattle.map_rules.specs.Memory.{width};
ghost use Rattle.map_rules.specs.Search.{side_of, side_at, Found};
ghost use Rattle.map_table.specs.Interval.{row_of};
ghost use Rattle.map_moves.specs.Side.{side_number};

use map_table::interval::{Interval, interval_at};
use map_table::places::first_not;

// The side of an interval on which another lies.
#[derive(Clone, Copy, Debug, PartialEq, Eq)]
pub enum IntervalSide {
    Before,
    // It touches or overlaps.
    Touching,
    After,
}

// The side of n on which x lies.
pub fn side(n: Interval, x: Interval) -> IntervalSide
    ensures { side_number result ≡ side_of (row_of n) (row_of x) }
{
    if x.instrument < n.instrument {
        IntervalSide::Before
    } else if n.instrument < x.instrument {
        IntervalSide::After
    } else if x.end < n.start {
        IntervalSide::Before
    } else if n.end < x.start {
        IntervalSide::After
    } else {
        IntervalSide::Touching
    }
}

// Whether x lies before n.
fn is_before(n: Interval, x: Interval) -> bool
    ensures { result ≡ ltb (side_of (row_of n) (row_of x)) 1 }
{
    side(n, x) == IntervalSide::Before
}

// The first of the `used` places whose interval does not lie before n, where the table is in order. The last interval is looked at
// first, as a table that is built in order grows at its end.
pub fn find(table: &[u8], used: usize, n: Interval) -> usize
    requires { used * width ≤ length table.now }
    ensures { Found table.now used (row_of n) 1 result }
{
    if used == 0 || is_before(n, interval_at(table, used - 1)) {
        return used;
    }
    first_not(used, |place| is_before(n, interval_at(table, place)))
}

// The first of the `used` places from lo on whose interval lies after n, where lo is the first that does not lie before it. The
// places between them are those that an insert of n frees.
pub fn pass(table: &[u8], used: usize, lo: usize, n: Interval) -> usize
    requires { (used * width ≤ length table.now) × Found table.now used (row_of n) 1 lo }
    ensures { Found table.now used (row_of n) 2 result }
{
    for hi in lo..used {
        if side(n, interval_at(table, hi)) == IntervalSide::After {
            return hi;
        }
    }
    used
}
