// Intervals moved, replaced and cleared in the table over time.
ghost use Rattle.std.specs.Prelude.{◌≡◌, ◌+◌, ◌-◌, ◌*◌, ◌≤◌, length, Option};
ghost use Rattle.map_rules.specs.Memory.{width};
ghost use Rattle.map_rules.specs.Moves.{Moved, Cleared, Replaced};
ghost use Rattle.map_table.specs.Interval.{row_of};
ghost use Rattle.map_moves.specs.Pieces.{pieces, piece_row};

use map_table::interval::{Interval, WIDTH, put_interval};

// Moves the intervals from `from` up to `used` to the place `to` on; where they stand there, nothing is copied.
fn move_tail(table: &mut [u8], from: usize, used: usize, to: usize)
    requires { (from ≤ used) × (used * width ≤ length table.old) × ((to + (used - from)) * width ≤ length table.old) }
    ensures { Moved table.old from used to table.new }
{
    if from != to {
        table.copy_within(from * WIDTH..used * WIDTH, to * WIDTH);
    }
}

// Clears the places from `from` up to `to`: they hold 0.
pub fn clear(table: &mut [u8], from: usize, to: usize)
    requires { to * width ≤ length table.old }
    ensures { Cleared table.old from to table.new }
{
    if from < to {
        table[from * WIDTH..to * WIDTH].fill(0);
    }
}

// How many intervals a piece is: 1, or 0 where there is none.
pub fn count(piece: Option<Interval>) -> usize
    ensures { (result ≡ pieces piece) × (result ≤ 1) }
{
    usize::from(piece.is_some())
}

// Puts into the place of the intervals from lo up to hi: the left piece, the core and the right piece.
pub fn replace(
    table: &mut [u8],
    used: usize,
    lo: usize,
    hi: usize,
    left: Option<Interval>,
    core: Interval,
    right: Option<Interval>,
)
    requires { (lo ≤ hi) × (hi ≤ used) × (used * width ≤ length table.old) × ((lo + pieces left + 1 + pieces right + (used - hi)) * width ≤ length table.old) }
    ensures { Replaced table.old used lo hi (piece_row left) (row_of core) (piece_row right) (pieces left) (pieces right) table.new }
{
    let middle = lo + count(left);
    move_tail(table, hi, used, middle + 1 + count(right));
    if let Some(piece) = left {
        put_interval(table, lo, piece);
    }
    put_interval(table, middle, core);
    if let Some(piece) = right {
        put_interval(table, middle + 1, piece);
    }
}
