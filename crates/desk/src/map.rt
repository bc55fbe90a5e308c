// The map over time, two tables of it side by side, why there is a symbol or none, and the point-in-time table (RULES, The map over
// time; Requests, No. 1 and No. 4).
ghost use Rattle.std.specs.Prelude.{◌≡◌, true, not, ◌||◌, length, T};
ghost use Rattle.map_rules.specs.Table.{ordered};
ghost use Rattle.map_rules.specs.Memory.{same_value, rows, table_fits, check_answer, insert_outcome};
ghost use Rattle.map_rules.specs.Looks.{lookup_answer};
ghost use Rattle.map_record.specs.Mapping.{time_left, point_left};
ghost use Rattle.door_answers.specs.Answers.{number_in, value_in, given_in, row};
ghost use Rattle.door_map.specs.Inserting.{DeskInsert};
ghost use Rattle.door_map.specs.OnRecord.{Tells};
ghost use Rattle.map_point.specs.Entries.{entries};
ghost use Rattle.map_point.specs.Points.{rising, points_fit, points_checked, point_found};
ghost use Rattle.map_compare_rules.specs.Memory.{compare_outcome, compared_answer, compared_memory};
ghost use Rattle.map_explain.specs.Explain.{explain_answer};
ghost use Rattle.door_map.specs.Lent.{lent, DeskExplain};

// Whether the table is well-formed: 0, 14 or 15.
#[unsafe(no_mangle)]
pub extern "C" fn desk_check(table: &[u8], used: usize, names: usize) -> u32
    ensures { result ≡ number_in (check_answer table.now used names) }
{
    door_map::map::desk_check(table, used, names)
}

// Inserts a symbol for an instrument from start to before end: 0, 15, 14, 1, 3 or 2; `used` becomes the new number in use.
#[unsafe(no_mangle)]
pub extern "C" fn desk_insert(
    table: &mut [u8],
    used: &mut usize,
    names: usize,
    instrument: u32,
    start: u64,
    end: u64,
    symbol: u32,
) -> u32
    ensures { DeskInsert (insert_outcome table.old used.old names (row instrument start end symbol))
        table.old used.old result used.new table.new }
{
    door_map::map::desk_insert(table, used, names, instrument, start, end, symbol)
}

// The symbol of an instrument at a moment, with any hint: 0 or 15; `hint` becomes the new hint, `found` 1 and `symbol` the symbol, or both 0.
#[unsafe(no_mangle)]
pub extern "C" fn desk_get_for_ts(
    table: &[u8],
    used: usize,
    instrument: u32,
    moment: u64,
    hint: &mut u64,
    found: &mut u32,
    symbol: &mut u32,
) -> u32
    ensures right { T (not (table_fits (length table.now) used) || ordered same_value (rows table.now used))
        → (result ≡ number_in (lookup_answer table.now used instrument moment hint.old))
        × (hint.new ≡ value_in hint.old 0 (lookup_answer table.now used instrument moment hint.old))
        × (found.new ≡ given_in found.old 1 (lookup_answer table.now used instrument moment hint.old))
        × (symbol.new ≡ value_in symbol.old 1 (lookup_answer table.now used instrument moment hint.old)) }
    ensures accepted { table_fits (length table.now) used ≡ true → result ≡ 0 }
{
    door_map::map::desk_get_for_ts(table, used, instrument, moment, hint, found, symbol)
}

// A record's bytes on a table over time: a symbol mapping inserts its interval, and a new name joins the list: 0, 15, 14, 13, 4, 1, 5 or 2; `reason` is set by 13 alone.
#[unsafe(no_mangle)]
pub extern "C" fn desk_on_record(
    table: &mut [u8],
    used: &mut usize,
    bytes: &mut [u8],
    ends: &mut [u32],
    names: &mut usize,
    name_bytes: &mut usize,
    rec: &[u8],
    reason: &mut u64,
) -> u32
    ensures { Tells (time_left table.old used.old bytes.old ends.old names.old name_bytes.old rec.now)
        used.old names.old name_bytes.old reason.old result used.new names.new name_bytes.new
        reason.new table.new bytes.new ends.new }
{
    door_map::map::desk_on_record(table, used, bytes, ends, names, name_bytes, rec, reason)
}

// Whether a point-in-time table is well-formed: 0, 14 or 15.
#[unsafe(no_mangle)]
pub extern "C" fn desk_check_points(table: &[u8], used: usize, names: usize) -> u32
    ensures { result ≡ number_in (points_checked table.now used names) }
{
    door_map::points::desk_check_points(table, used, names)
}

// The symbol of an instrument: 0 or 15; `found` becomes 1 and `symbol` the symbol, or both 0.
#[unsafe(no_mangle)]
pub extern "C" fn desk_get_point(
    table: &[u8],
    used: usize,
    instrument: u32,
    found: &mut u32,
    symbol: &mut u32,
) -> u32
    ensures right { T (not (points_fit (length table.now) used) || rising (entries table.now used))
        → (result ≡ number_in (point_found table.now used instrument))
        × (found.new ≡ given_in found.old 0 (point_found table.now used instrument))
        × (symbol.new ≡ value_in symbol.old 0 (point_found table.now used instrument)) }
    ensures accepted { points_fit (length table.now) used ≡ true → result ≡ 0 }
{
    door_map::points::desk_get_point(table, used, instrument, found, symbol)
}

// A record's bytes on a point-in-time table: a symbol mapping sets its instrument's entry, and a new name joins the list: 0, 15, 14, 13, 4, 5 or 2; `reason` is set by 13 alone.
#[unsafe(no_mangle)]
pub extern "C" fn desk_on_record_point(
    table: &mut [u8],
    used: &mut usize,
    bytes: &mut [u8],
    ends: &mut [u32],
    names: &mut usize,
    name_bytes: &mut usize,
    rec: &[u8],
    reason: &mut u64,
) -> u32
    ensures { Tells (point_left table.old used.old bytes.old ends.old names.old name_bytes.old rec.now)
        used.old names.old name_bytes.old reason.old result used.new names.new name_bytes.new
        reason.new table.new bytes.new ends.new }
{
    door_map::points::desk_on_record_point(table, used, bytes, ends, names, name_bytes, rec, reason)
}

// Lays every stretch in which two tables of one name list disagree: 0, 15, 14 or 2; `count` becomes the number of stretches.
#[unsafe(no_mangle)]
pub extern "C" fn desk_compare(
    left: &[u8],
    used: usize,
    right: &[u8],
    other: usize,
    names: usize,
    stretches: &mut [u8],
    count: &mut usize,
) -> u32
    ensures value { result ≡ number_in (compared_answer (compare_outcome left.now used right.now other names stretches.old)) }
    ensures count_after { count.new ≡ value_in count.old 0 (compared_answer (compare_outcome left.now used right.now other names stretches.old)) }
    ensures stretches_after { stretches.new ≡ compared_memory stretches.old (compare_outcome left.now used right.now other names stretches.old) }
{
    door_map::compare::desk_compare(left, used, right, other, names, stretches, count)
}

// Why the instrument has a symbol at the moment, or none: 0, 15 or 14; the numbers become the reason's and its intervals'.
#[unsafe(no_mangle)]
pub extern "C" fn desk_explain(
    table: &[u8],
    used: usize,
    names: usize,
    instrument: u32,
    moment: u64,
    reason: &mut u32,
    index: &mut u64,
    start: &mut u64,
    end: &mut u64,
    symbol: &mut u32,
    next_start: &mut u64,
    next_end: &mut u64,
    next_symbol: &mut u32,
) -> u32
    ensures { DeskExplain (explain_answer table.now used names instrument moment) result
        (lent reason.old index.old start.old end.old symbol.old next_start.old next_end.old next_symbol.old)
        (lent reason.new index.new start.new end.new symbol.new next_start.new next_end.new next_symbol.new) }
{
    door_map::explain::desk_explain(
        table,
        used,
        names,
        instrument,
        moment,
        reason,
        index,
        start,
        end,
        symbol,
        next_start,
        next_end,
        next_symbol,
    )
}
