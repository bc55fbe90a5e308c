// Both builds from metadata (RULES, The map over time).
ghost use Rattle.std.specs.Prelude.{length};
ghost use Rattle.metadata_form.specs.Header.{lists};
ghost use Rattle.build_time.specs.OverTime.{over_time_answer, over_time_memory};
ghost use Rattle.build_point.specs.Build.{point_in_time_answer, point_in_time_memory};
ghost use Rattle.door_builds.specs.Build.{Building};

// Builds a table over time: 0, 15, 14, 9, 3, 8, 11, 1 or 2; `used` becomes the intervals in use, 0 on a refusal.
#[unsafe(no_mangle)]
pub extern "C" fn desk_build(
    table: &mut [u8],
    used: &mut usize,
    header: &[u64],
    symbols: &[u32],
    partial: &[u32],
    not_found: &[u32],
    mappings: &[u32],
    intervals: &[u32],
    bytes: &[u8],
    ends: &[u32],
    names: usize,
    name_bytes: usize,
) -> u32
    ensures { Building (length table.old) header.now
        (λ h. over_time_answer table.old h (lists symbols.now partial.now not_found.now mappings.now
        intervals.now) bytes.now ends.now names name_bytes)
        (λ h. over_time_memory table.old h (lists symbols.now partial.now not_found.now mappings.now
        intervals.now) bytes.now ends.now names name_bytes) result used.new table.new }
{
    door_builds::build::desk_build(
        table, used, header, symbols, partial, not_found, mappings, intervals, bytes, ends, names,
        name_bytes,
    )
}

// Builds a point-in-time table for a date: 0, 15, 14, 11, 9, 10, 3, 8 or 2; `used` becomes the entries in use, 0 on a refusal.
#[unsafe(no_mangle)]
pub extern "C" fn desk_build_points(
    table: &mut [u8],
    used: &mut usize,
    header: &[u64],
    symbols: &[u32],
    partial: &[u32],
    not_found: &[u32],
    mappings: &[u32],
    intervals: &[u32],
    bytes: &[u8],
    ends: &[u32],
    names: usize,
    name_bytes: usize,
    date: u32,
) -> u32
    ensures { Building (length table.old) header.now
        (λ h. point_in_time_answer (length table.old) h
        (lists symbols.now partial.now not_found.now mappings.now intervals.now) bytes.now
        ends.now names name_bytes date) (λ h. point_in_time_memory (length table.old) h
        (lists symbols.now partial.now not_found.now mappings.now intervals.now) bytes.now
        ends.now names name_bytes date) result used.new table.new }
{
    door_builds::build::desk_build_points(
        table, used, header, symbols, partial, not_found, mappings, intervals, bytes, ends, names,
        name_bytes, date,
    )
}
