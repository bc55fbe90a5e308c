// A table over time: the memory that is lent for it (RULES, Numbers the desk lives by), and its check (RULES, The map over time).
ghost use Rattle.std.specs.Prelude.{◌≡◌, ◌&&◌, [], ◌∷◌, ◌*◌, ◌≤◌, ◌<◌, length};
ghost use Rattle.map_rules.specs.Table.{names_fit, apart_row, well_formed};
ghost use Rattle.map_rules.specs.Memory.{same_value, known_value, width, rows, table_fits, check_answer};
ghost use Rattle.map_rules.specs.Checks.{valid, follows};
ghost use Rattle.map_table.specs.Interval.{row_of};
ghost use Rattle.theory.specs.Answer.{no_values};
ghost use Rattle.leaves.specs.Refusal.{answer_with};

use crate::interval::{Interval, WIDTH, interval_at, same_value};
use leaves::refusal::Refusal;
use leaves_limits::{NAMES, ROOM};

// A table's bytes are at most so many.
const BYTE_LIMIT: usize = ROOM * WIDTH;

// Whether memory of this length may be a table with so many intervals in use; where not, 15.
pub fn table_fits(length: usize, used: usize) -> bool
    ensures { result ≡ table_fits length used }
{
    used <= ROOM && length <= BYTE_LIMIT && length % WIDTH == 0 && used * WIDTH <= length
}

// The same, with the name count.
pub fn memory_fits(length: usize, used: usize, names: usize) -> bool
    ensures { result ≡ table_fits length used && names_fit names }
{
    table_fits(length, used) && names <= NAMES
}

// Whether an interval by itself is as it should be: non-empty, its symbol known.
fn is_valid(x: Interval, names: usize) -> bool
    ensures { result ≡ valid names (row_of x) }
{
    x.start < x.end && (x.symbol as usize) < names
}

// Whether y may stand right after x: of a higher instrument, or of the same one and apart, or touching with another value.
fn may_follow(x: Interval, y: Interval) -> bool
    ensures { result ≡ apart_row same_value (row_of x) (row_of y ∷ []) }
{
    if x.instrument == y.instrument {
        x.end < y.start || (x.end == y.start && !same_value(x, y))
    } else {
        x.instrument < y.instrument
    }
}

// Whether y is as it should be, by itself and right after x.
fn is_next(x: Interval, y: Interval, names: usize) -> bool
    ensures { result ≡ follows names (row_of x) (row_of y) }
{
    is_valid(y, names) && may_follow(x, y)
}

// Whether the table is well-formed: each interval is read once. Two in a turn, since one in a turn has to be moved to where the one before
// it stood, which takes a fifth more.
pub fn well_formed(table: &[u8], used: usize, names: usize) -> bool
    requires { used * width ≤ length table.now }
    ensures { result ≡ well_formed same_value known_value names (rows table.now used) }
{
    if used == 0 {
        return true;
    }
    let mut x = interval_at(table, 0);
    if !is_valid(x, names) {
        return false;
    }
    let mut k: usize = 1;
    while k + 1 < used {
        let y = interval_at(table, k);
        if !is_next(x, y, names) {
            return false;
        }
        x = interval_at(table, k + 1);
        if !is_next(y, x, names) {
            return false;
        }
        k += 2;
    }
    if k < used {
        is_next(x, interval_at(table, k), names)
    } else {
        true
    }
}

// The check: yes exactly for well-formed tables, else 14; 15 where the memory is no table.
pub fn check(table: &[u8], used: usize, names: usize) -> Result<(), Refusal>
    ensures { answer_with no_values result ≡ check_answer table.now used names }
{
    if !memory_fits(table.len(), used, names) {
        Err(Refusal::BadMemory)
    } else if well_formed(table, used, names) {
        Ok(())
    } else {
        Err(Refusal::IllFormed)
    }
}
