// The walk over two tables side by side: at each turn their two heads give a stretch of time that one or both of them speak of,
// and go on or are cut to what is left of them.
ghost use Rattle.std.specs.Prelude.{◌≡◌, true, false, ◌+◌, ◌*◌, ◌≤◌, ◌<◌, max, length};
ghost use Rattle.leaves_limits.specs.Limits.{most_room};
ghost use Rattle.map_rules.specs.Memory.{same_value, width};
ghost use Rattle.map_table.specs.Interval.{row_of};
ghost use Rattle.map_compare_rules.specs.Compare.{over};
ghost use Rattle.map_compare_walk.specs.Walk.{turn_by, both_of, turn_of, step_of, moved, spoken, head_at, taken_of, More, Ready, Stepped};

use self::Onward::{On, Stays};
use crate::tables::Tables;
use map_table::interval::{Interval, interval_at, same_value};

// How far a table is walked: the place of its head, and the moment from which that still counts.
#[derive(Clone, Copy, Debug, Default, PartialEq, Eq)]
pub struct Position {
    pub place: usize,
    pub from: u64,
}

// What becomes of a head: it goes on, or it stays and then counts from a moment.
#[derive(Clone, Copy, Debug, PartialEq, Eq)]
pub enum Onward {
    On,
    Stays(u64),
}

// What two heads give: which of them say something from start to before end, neither where both say the same, and what becomes of
// them. It holds no value, so that its laws are over any type of value.
#[derive(Clone, Copy, Debug, PartialEq, Eq)]
pub struct Turn {
    pub left: bool,
    pub right: bool,
    pub start: u64,
    pub end: u64,
    pub x: Onward,
    pub y: Onward,
}

// A stretch: from start to before end the left table says one symbol, or nothing, and the right one another, or nothing.
#[derive(Clone, Copy, Debug, PartialEq, Eq)]
pub struct Stretch {
    pub instrument: u32,
    pub start: u64,
    pub end: u64,
    pub left: Option<u32>,
    pub right: Option<u32>,
}

// The stretch that a turn tells of, if it does, and how far both tables are walked after it.
#[derive(Clone, Copy, Debug, PartialEq, Eq)]
pub struct Step {
    pub stretch: Option<Stretch>,
    pub left: Position,
    pub right: Position,
}

// The head of a table at a position.
#[inline(always)]
fn head(table: &[u8], p: Position) -> Interval
    requires { p.place * width + width ≤ length table.now }
    ensures { row_of result ≡ head_at table.now p }
{
    let x = interval_at(table, p.place);
    let start = p.from.max(x.start);
    Interval { start, ..x }
}

// Whether x is over before y starts.
#[inline(always)]
fn is_over(x: Interval, y: Interval) -> bool
    ensures { result ≡ over (row_of x) (row_of y) }
{
    x.instrument < y.instrument || (x.instrument == y.instrument && x.end <= y.start)
}

// A turn by its parts.
#[inline(always)]
fn made(left: bool, right: bool, start: u64, end: u64, x: Onward, y: Onward) -> Turn
    ensures { result ≡ turn_by left right start end x y }
{
    Turn {
        left,
        right,
        start,
        end,
        x,
        y,
    }
}

// What two heads give that start at the same moment, where they overlap.
#[inline(always)]
fn both(x: Interval, y: Interval) -> Turn
    ensures { result ≡ both_of same_value (row_of x) (row_of y) }
{
    let differ = !same_value(x, y);
    if x.end < y.end {
        made(differ, differ, x.start, x.end, On, Stays(x.end))
    } else if y.end < x.end {
        made(differ, differ, x.start, y.end, Stays(y.end), On)
    } else {
        made(differ, differ, x.start, x.end, On, On)
    }
}

// What two heads give.
#[inline(always)]
fn turn_of(x: Interval, y: Interval) -> Turn
    ensures { result ≡ turn_of same_value (row_of x) (row_of y) }
{
    if is_over(x, y) {
        made(true, false, x.start, x.end, On, Stays(y.start))
    } else if is_over(y, x) {
        made(false, true, y.start, y.end, Stays(x.start), On)
    } else if x.start < y.start {
        let later = Stays(y.start);
        made(true, false, x.start, y.start, later, later)
    } else if y.start < x.start {
        let later = Stays(x.start);
        made(false, true, y.start, x.start, later, later)
    } else {
        both(x, y)
    }
}

// The position of a table after a turn.
#[inline(always)]
fn moved(p: Position, o: Onward) -> Position
    requires { p.place + step_of o ≤ most_room }
    ensures { result ≡ moved p o }
{
    match o {
        On => Position {
            place: p.place + 1,
            from: 0,
        },
        Stays(from) => Position { from, ..p },
    }
}

// The stretch that a turn of the heads x and y tells of, if one of them says something.
#[inline(always)]
fn spoken(x: Interval, y: Interval, t: Turn) -> Option<Stretch>
    ensures { result ≡ spoken x y t }
{
    let instrument = if t.left { x.instrument } else { y.instrument };
    let says = t.left || t.right;
    says.then_some(Stretch {
        instrument,
        start: t.start,
        end: t.end,
        left: t.left.then_some(x.symbol),
        right: t.right.then_some(y.symbol),
    })
}

// A step: the stretch of a turn of the heads x and y, and how far both tables are walked after it.
#[inline(always)]
fn taken(x: Interval, y: Interval, t: Turn, l: Position, r: Position) -> Step
    requires { (l.place + step_of t.x ≤ most_room) × (r.place + step_of t.y ≤ most_room) }
    ensures { result ≡ taken_of x y t l r }
{
    Step {
        stretch: spoken(x, y, t),
        left: moved(l, t.x),
        right: moved(r, t.y),
    }
}

// One turn of the walk over two tables, where one of them is not used up: both heads, or the one that is left.
#[inline(always)]
pub fn next_step(tables: Tables<'_>, l: Position, r: Position) -> Step
    requires { Ready tables.left.now tables.left_used tables.right.now tables.right_used l r × More tables.left_used tables.right_used l r }
    ensures { let t = tables.entry in Stepped t.left.now t.left_used t.right.now t.right_used l r result }
{
    if l.place < tables.left_used {
        let x = head(tables.left, l);
        if r.place < tables.right_used {
            let y = head(tables.right, r);
            let t = turn_of(x, y);
            taken(x, y, t, l, r)
        } else {
            let t = made(true, false, x.start, x.end, On, Stays(0));
            taken(x, x, t, l, r)
        }
    } else {
        let y = head(tables.right, r);
        let t = made(false, true, y.start, y.end, Stays(0), On);
        taken(y, y, t, l, r)
    }
}
