// The point-in-time table (RULES, The map over time): one entry an instrument, sorted by instrument, in lent bytes
// of which `used` entries are in use from the front. Its length is `used`.
ghost use Rattle.std.specs.Prelude.{◌≡◌, true, not, ◌||◌, ◌*◌, ◌≤◌, ◌<◌, length, T};
ghost use Rattle.map_rules.specs.Looks.{number_in};
ghost use Rattle.theory.specs.Answer.{no_values, one_value};
ghost use Rattle.leaves.specs.Refusal.{answer_with};
ghost use Rattle.map_point.specs.Entries.{entries};
ghost use Rattle.map_point.specs.Points.{rising, well_formed, points_fit, set_entry, points_checked, point_found, symbol_values, stored_answer, stored_bytes, used_then, entries_then};
ghost use Rattle.map_point.specs.PointsReads.{stands_at, holds_at, EntryPlaced};

use crate::entries::{Entry, WIDTH, entry_at, move_up, put_entry};
use leaves::refusal::Refusal;
use leaves_limits::{NAMES, ROOM};
use map_table::places::first_not;

// Whether memory of so many bytes may be a table with so many entries in use.
pub fn points_fit(bytes: usize, used: usize) -> bool
    ensures { result ≡ points_fit bytes used }
{
    bytes % WIDTH == 0 && bytes / WIDTH <= ROOM && used <= bytes / WIDTH
}

// Whether the entry at a place has a known symbol and the next one in use is of a higher instrument.
fn stands(table: &[u8], used: usize, names: usize, place: usize) -> bool
    requires { (place < used) × (used * 8 ≤ length table.now) }
    ensures { result ≡ stands_at table.now used names place }
{
    let x = entry_at(table, place);
    (x.symbol as usize) < names
        && (place + 1 == used || x.instrument < entry_at(table, place + 1).instrument)
}

// Whether the entries in use are sorted by instrument, each once, with known symbols.
pub fn well_formed(table: &[u8], used: usize, names: usize) -> bool
    requires { used * 8 ≤ length table.now }
    ensures { result ≡ well_formed names (entries table.now used) }
{
    for place in 0..used {
        if !stands(table, used, names, place) {
            return false;
        }
    }
    true
}

// Whether a table is well-formed, where so many names are known.
pub fn check_points(table: &[u8], used: usize, names: usize) -> Result<(), Refusal>
    ensures { answer_with no_values result ≡ points_checked table.now used names }
{
    if !points_fit(table.len(), used) || NAMES < names {
        Err(Refusal::BadMemory)
    } else if well_formed(table, used, names) {
        Ok(())
    } else {
        Err(Refusal::IllFormed)
    }
}

// The place of the first entry in use whose instrument is not below this one.
fn place_of(table: &[u8], used: usize, instrument: u32) -> usize
    requires { used * 8 ≤ length table.now }
    ensures { EntryPlaced table.now used instrument result }
{
    first_not(used, |place| entry_at(table, place).instrument < instrument)
}

// Whether a place is in use and its entry is of an instrument.
fn holds(table: &[u8], used: usize, place: usize, instrument: u32) -> bool
    requires { used * 8 ≤ length table.now }
    ensures { result ≡ holds_at table.now used place instrument }
{
    place < used && entry_at(table, place).instrument == instrument
}

// The symbol of an instrument: 15 only. On a table that is not sorted the answer may be any symbol or nothing.
pub fn get(table: &[u8], used: usize, instrument: u32) -> Result<Option<u32>, Refusal>
    ensures right { T (not (points_fit (length table.now) used) || rising (entries table.now used)) → answer_with symbol_values result ≡ point_found table.now used instrument }
    ensures accepted { points_fit (length table.now) used ≡ true → number_in (answer_with symbol_values result) ≡ 0 }
{
    if !points_fit(table.len(), used) {
        return Err(Refusal::BadMemory);
    }
    let place = place_of(table, used, instrument);
    if holds(table, used, place, instrument) {
        Ok(Some(entry_at(table, place).symbol))
    } else {
        Ok(None)
    }
}

// Sets the entry of its instrument in a sorted table: in the place of the earlier one, or at its place with the later
// entries moved up.
pub fn set_entry(table: &mut [u8], used: usize, x: Entry) -> Result<usize, Refusal>
    requires { (used * 8 ≤ length table.old) × T (rising (entries table.old used)) }
    ensures answered { answer_with one_value result ≡ stored_answer table.old (set_entry x (entries table.old used)) }
    ensures bytes { table.new ≡ stored_bytes table.old (set_entry x (entries table.old used)) }
    ensures stored { entries table.new (used_then table.old used (set_entry x (entries table.old used))) ≡ entries_then table.old used (set_entry x (entries table.old used)) }
{
    let place = place_of(table, used, x.instrument);
    if holds(table, used, place, x.instrument) {
        put_entry(table, place, x);
        return Ok(used);
    }
    if table.len() / WIDTH <= used {
        return Err(Refusal::NoRoom);
    }
    move_up(table, place, used);
    put_entry(table, place, x);
    Ok(used + 1)
}
