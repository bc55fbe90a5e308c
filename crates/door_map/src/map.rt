// The table over time at the C door (RULES, The map over time): bytes, 24 an interval.
ghost use Rattle.std.specs.Prelude.{◌≡◌, true, not, ◌||◌, length, T};
ghost use Rattle.map_rules.specs.Table.{ordered};
ghost use Rattle.map_rules.specs.Memory.{same_value, rows, table_fits, check_answer, insert_outcome};
ghost use Rattle.map_rules.specs.Looks.{lookup_answer};
ghost use Rattle.map_record.specs.Mapping.{time_left};
ghost use Rattle.door_answers.specs.Answers.{number_in, value_in, given_in, row};
ghost use Rattle.door_map.specs.Inserting.{DeskInsert};
ghost use Rattle.door_map.specs.OnRecord.{Tells};

use crate::record::tell;
use crate::symbol::hand_symbol;
use door_answers::DONE;
use leaves_names::names::NameRoom;
use map_look::lookup::get_for_ts;
use map_record::mapping::on_record;
use map_table::interval::Interval;
use map_table::table::check;
use map_time::insert::insert;

// Whether the table is well-formed: 0, 14 or 15.
#[unsafe(no_mangle)]
pub extern "C" fn desk_check(table: &[u8], used: usize, names: usize) -> u32
    ensures { result ≡ number_in (check_answer table.now used names) }
{
    match check(table, used, names) {
        Ok(()) => DONE,
        Err(refusal) => refusal.number(),
    }
}

// Inserts a symbol for an instrument from start to before end: 0, 15, 14, 1, 3 or 2; `used` becomes the new number in use.
#[unsafe(no_mangle)]
pub extern "C" fn desk_insert(
    table: &mut [u8],
    used: &mut usize,
    names: usize,
    instrument: u32,
    start: u64,
    end: u64,
    symbol: u32,
) -> u32
    ensures { DeskInsert (insert_outcome table.old used.old names (row instrument start end symbol))
        table.old used.old result used.new table.new }
{
    let interval = Interval {
        instrument,
        symbol,
        start,
        end,
    };
    match insert(table, *used, names, interval) {
        Ok(length) => {
            *used = length;
            DONE
        }
        Err(refusal) => refusal.number(),
    }
}

// The symbol of an instrument at a moment, with any hint: 0 or 15; `hint` becomes the new hint, `found` 1 and `symbol` the symbol, or both 0.
#[unsafe(no_mangle)]
pub extern "C" fn desk_get_for_ts(
    table: &[u8],
    used: usize,
    instrument: u32,
    moment: u64,
    hint: &mut u64,
    found: &mut u32,
    symbol: &mut u32,
) -> u32
    ensures right { T (not (table_fits (length table.now) used) || ordered same_value (rows table.now used))
        → (result ≡ number_in (lookup_answer table.now used instrument moment hint.old))
        × (hint.new ≡ value_in hint.old 0 (lookup_answer table.now used instrument moment hint.old))
        × (found.new ≡ given_in found.old 1 (lookup_answer table.now used instrument moment hint.old))
        × (symbol.new ≡ value_in symbol.old 1 (lookup_answer table.now used instrument moment hint.old)) }
    ensures accepted { table_fits (length table.now) used ≡ true → result ≡ 0 }
{
    let looked = get_for_ts(table, used, instrument, moment, *hint);
    match looked.found {
        Ok(answer) => {
            *hint = looked.hint;
            hand_symbol(answer, found, symbol);
            DONE
        }
        Err(why) => why.number(),
    }
}

// A record's bytes on a table over time: a symbol mapping inserts its interval, and a new name joins the list: 0, 15, 14, 13, 4, 1, 5 or 2; `reason` is set by 13 alone.
#[unsafe(no_mangle)]
pub extern "C" fn desk_on_record(
    table: &mut [u8],
    used: &mut usize,
    bytes: &mut [u8],
    ends: &mut [u32],
    names: &mut usize,
    name_bytes: &mut usize,
    rec: &[u8],
    reason: &mut u64,
) -> u32
    ensures { Tells (time_left table.old used.old bytes.old ends.old names.old name_bytes.old rec.now)
        used.old names.old name_bytes.old reason.old result used.new names.new name_bytes.new
        reason.new table.new bytes.new ends.new }
{
    let mut room = NameRoom {
        bytes,
        ends,
        names: *names,
        name_bytes: *name_bytes,
    };
    let recorded = on_record(table, *used, &mut room, rec);
    tell(
        recorded,
        room.names,
        room.name_bytes,
        used,
        names,
        name_bytes,
        reason,
    )
}
