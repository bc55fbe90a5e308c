// A stretch's line: instrument, start, end, left symbol or `-`, right symbol or `-`.
ghost use Rattle.std.specs.Prelude.{◌≡◌, ◌+◌, ◌≤◌, length};
ghost use Rattle.lines.specs.Lines.{Lays};
ghost use Rattle.map_compare_walk.specs.Walk.{said, stretch_of};
ghost use Rattle.map_compare_walk.specs.Stretches.{rest};
ghost use Rattle.compare_text.specs.Text.{side_text, numbers_text, sides_text, stretch_line};
ghost use Rattle.compare_text.specs.Portions.{Portioned};

use lines::lines::{number, word};
use map_compare_walk::stretches::Walk;
use map_compare_walk::walk::Stretch;

// Room that every line fits: five numbers of 20 digits, four blanks and the line's end.
const LINE: usize = 105;

// Lays the symbol of a side that says something, else `-`.
fn side(text: &mut [u8], at: usize, symbol: Option<u32>) -> usize
    requires { at + 20 ≤ length text.old }
    ensures { Lays text.old at (side_text (said symbol)) result text.new × (result ≤ at + 20) }
{
    match symbol {
        Some(symbol) => number(text, at, symbol as u64),
        None => word(text, at, b"-"),
    }
}

// Lays a stretch's instrument, start and end.
fn numbers(text: &mut [u8], at: usize, s: Stretch) -> usize
    requires { at + 63 ≤ length text.old }
    ensures { Lays text.old at (numbers_text (stretch_of s)) result text.new × (result ≤ at + 63) }
{
    let a = number(text, at, s.instrument as u64);
    let b = word(text, a, b" ");
    let c = number(text, b, s.start);
    let d = word(text, c, b" ");
    let e = number(text, d, s.end);
    word(text, e, b" ")
}

// Lays its two sides and the line's end.
fn sides(text: &mut [u8], at: usize, s: Stretch) -> usize
    requires { at + 42 ≤ length text.old }
    ensures { Lays text.old at (sides_text (stretch_of s)) result text.new × (result ≤ at + 42) }
{
    let a = side(text, at, s.left);
    let b = word(text, a, b" ");
    let c = side(text, b, s.right);
    word(text, c, b"\n")
}

// Lays a stretch's line, and answers the place behind it.
fn tell(text: &mut [u8], at: usize, s: Stretch) -> usize
    requires { at + 105 ≤ length text.old }
    ensures { Lays text.old at (stretch_line (stretch_of s)) result text.new × (result ≤ at + 105) }
{
    let a = numbers(text, at, s);
    sides(text, a, s)
}

// Lays whole lines from where a walk stands until the walk is at its end or the next line might not fit, and answers where the text
// ends. The walk stays over the same tables.
pub fn lay_portion(walk: &mut Walk<'_>, text: &mut [u8]) -> usize
    requires { 105 ≤ length text.old }
    ensures portion { Portioned (rest walk.old) (rest walk.new) result text.new }
    ensures tables { walk.new.tables ≡ walk.old.tables }
{
    let mut at = 0;
    while LINE <= text.len() - at {
        let Some(stretch) = walk.step() else {
            break;
        };
        at = tell(text, at, stretch);
    }
    at
}
