// An interval of the table over time, and the table's bytes (RULES, The map over time: "24 an interval, little-endian"). No other
// file knows them.
ghost use Rattle.std.specs.Prelude.{◌≡◌, ◌+◌, ◌*◌, ◌≤◌, length};
ghost use Rattle.map_rules.specs.Memory.{row_at, same_value, width};
ghost use Rattle.map_rules.specs.Halves.{RowFrom};
ghost use Rattle.map_rules.specs.Moves.{RowSet};
ghost use Rattle.map_table.specs.Interval.{row_of};

use leaves_fields::fields::{put_u32, put_u64, u32_at, u64_at};

// The bytes of an interval.
pub const WIDTH: usize = 24;

// A symbol's stretch [start, end) of an instrument.
#[derive(Clone, Copy, Debug, PartialEq, Eq)]
pub struct Interval {
    pub instrument: u32,
    pub symbol: u32,
    pub start: u64,
    pub end: u64,
}

// Whether two intervals have the same value, so that they are joined where they touch.
pub fn same_value(x: Interval, y: Interval) -> bool
    ensures { result ≡ same_value (row_of x).value (row_of y).value }
{
    x.symbol == y.symbol
}

// The interval in the bytes from o on, where a place begins.
pub fn interval_from(table: &[u8], o: usize) -> Interval
    requires { o + width ≤ length table.now }
    ensures { RowFrom table.now o (row_of result) }
{
    Interval {
        instrument: u32_at(table, o),
        symbol: u32_at(table, o + 4),
        start: u64_at(table, o + 8),
        end: u64_at(table, o + 16),
    }
}

// The interval at place i of the table.
pub fn interval_at(table: &[u8], i: usize) -> Interval
    requires { i * width + width ≤ length table.now }
    ensures { row_of result ≡ row_at table.now i }
{
    interval_from(table, i * WIDTH)
}

// Puts the interval x at place i of the table.
pub fn put_interval(table: &mut [u8], i: usize, x: Interval)
    requires { i * width + width ≤ length table.old }
    ensures { RowSet table.old i (row_of x) table.new }
{
    let o = i * WIDTH;
    put_u32(table, o, x.instrument);
    put_u32(table, o + 4, x.symbol);
    put_u64(table, o + 8, x.start);
    put_u64(table, o + 16, x.end);
}
