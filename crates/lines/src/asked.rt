// What a program over a table is asked: three sections, the name count (4 bytes), the table's intervals, and one of a last kind.
ghost use Rattle.std.specs.Prelude.{◌≡◌, length, IfSome};
ghost use Rattle.lines.specs.Asked.{table_end, Apart};

use crate::parts::part_end;

// The kind of the section with the name count, and of one with a table's intervals.
const NAMES: u16 = 2;

pub const TABLE: u16 = 3;

// The section with the name count takes so many bytes.
pub const NAMES_BYTES: usize = 10;

// Where the table's section ends; none where the input is over so many bytes or not the three sections.
pub fn table_end(input: &[u8], most: usize, last: u16) -> Option<usize>
    ensures whole { result ≡ table_end most last input.now }
    ensures apart { IfSome result (λ end. Apart end (length input.now)) }
{
    if most < input.len() || part_end(input, 0, NAMES)? != NAMES_BYTES {
        return None;
    }
    let end = part_end(input, NAMES_BYTES, TABLE)?;
    if part_end(input, end, last)? != input.len() {
        return None;
    }
    Some(end)
}
