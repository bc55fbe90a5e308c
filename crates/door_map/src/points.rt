// The point-in-time table at the C door (RULES, The map over time): bytes, 8 an entry, little-endian: instrument 4, symbol 4.
ghost use Rattle.std.specs.Prelude.{◌≡◌, true, not, ◌||◌, length, T};
ghost use Rattle.map_point.specs.Entries.{entries};
ghost use Rattle.map_point.specs.Points.{rising, points_fit, points_checked, point_found};
ghost use Rattle.map_record.specs.Mapping.{point_left};
ghost use Rattle.door_answers.specs.Answers.{number_in, value_in, given_in};
ghost use Rattle.door_map.specs.OnRecord.{Tells};

use crate::record::tell;
use crate::symbol::hand_symbol;
use door_answers::DONE;
use leaves_names::names::NameRoom;
use map_point::points::{check_points, get};
use map_record::mapping::on_record_point;

// Whether a point-in-time table is well-formed: 0, 14 or 15.
#[unsafe(no_mangle)]
pub extern "C" fn desk_check_points(table: &[u8], used: usize, names: usize) -> u32
    ensures { result ≡ number_in (points_checked table.now used names) }
{
    match check_points(table, used, names) {
        Ok(()) => DONE,
        Err(refusal) => refusal.number(),
    }
}

// The symbol of an instrument: 0 or 15; `found` becomes 1 and `symbol` the symbol, or both 0.
#[unsafe(no_mangle)]
pub extern "C" fn desk_get_point(
    table: &[u8],
    used: usize,
    instrument: u32,
    found: &mut u32,
    symbol: &mut u32,
) -> u32
    ensures right { T (not (points_fit (length table.now) used) || rising (entries table.now used))
        → (result ≡ number_in (point_found table.now used instrument))
        × (found.new ≡ given_in found.old 0 (point_found table.now used instrument))
        × (symbol.new ≡ value_in symbol.old 0 (point_found table.now used instrument)) }
    ensures accepted { points_fit (length table.now) used ≡ true → result ≡ 0 }
{
    match get(table, used, instrument) {
        Ok(answer) => {
            hand_symbol(answer, found, symbol);
            DONE
        }
        Err(refusal) => refusal.number(),
    }
}

// A record's bytes on a point-in-time table: a symbol mapping sets its instrument's entry, and a new name joins the list: 0, 15, 14, 13, 4, 5 or 2; `reason` is set by 13 alone.
#[unsafe(no_mangle)]
pub extern "C" fn desk_on_record_point(
    table: &mut [u8],
    used: &mut usize,
    bytes: &mut [u8],
    ends: &mut [u32],
    names: &mut usize,
    name_bytes: &mut usize,
    rec: &[u8],
    reason: &mut u64,
) -> u32
    ensures { Tells (point_left table.old used.old bytes.old ends.old names.old name_bytes.old rec.now)
        used.old names.old name_bytes.old reason.old result used.new names.new name_bytes.new
        reason.new table.new bytes.new ends.new }
{
    let mut room = NameRoom {
        bytes,
        ends,
        names: *names,
        name_bytes: *name_bytes,
    };
    let recorded = on_record_point(table, *used, &mut room, rec);
    tell(
        recorded,
        room.names,
        room.name_bytes,
        used,
        names,
        name_bytes,
        reason,
    )
}
