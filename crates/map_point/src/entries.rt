// The entries of a point-in-time table in lent bytes: 8 bytes an entry, little-endian, instrument 4, symbol 4.
// Above this file nobody speaks of bytes.
ghost use Rattle.std.specs.Prelude.{◌≡◌, ◌+◌, ◌-◌, ◌*◌, ◌≤◌, length};
ghost use Rattle.map_point.specs.Entries.{entry_at, entries_from, put_entry, put_entries};

use leaves_fields::fields::{put_u32, u32_at};

// The bytes of an entry, and where its symbol stands among them.
pub const WIDTH: usize = 8;

const SYMBOL: usize = 4;

// An instrument and its symbol number.
#[derive(Clone, Copy, Debug, PartialEq, Eq)]
pub struct Entry {
    pub instrument: u32,
    pub symbol: u32,
}

// The entry at a place.
pub fn entry_at(table: &[u8], place: usize) -> Entry
    requires { place * 8 + 8 ≤ length table.now }
    ensures { result ≡ entry_at table.now place }
{
    let at = place * WIDTH;
    Entry {
        instrument: u32_at(table, at),
        symbol: u32_at(table, at + SYMBOL),
    }
}

// Puts an entry at a place.
pub fn put_entry(table: &mut [u8], place: usize, x: Entry)
    requires { place * 8 + 8 ≤ length table.old }
    ensures { table.new ≡ put_entry table.old place x }
{
    let at = place * WIDTH;
    put_u32(table, at, x.instrument);
    put_u32(table, at + SYMBOL, x.symbol);
}

// Moves the entries from a place up to `used` up by one place.
pub fn move_up(table: &mut [u8], place: usize, used: usize)
    requires { (place ≤ used) × ((used + 1) * 8 ≤ length table.old) }
    ensures { table.new ≡ put_entries table.old (place + 1) (entries_from table.old place (used - place)) }
{
    table.copy_within(place * WIDTH..used * WIDTH, (place + 1) * WIDTH);
}
