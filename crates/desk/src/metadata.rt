// The metadata merge (RULES, Merging metadata).
ghost use Rattle.std.specs.Prelude.{◌≡◌};
ghost use Rattle.metadata_form.specs.Header.{lists};
ghost use Rattle.door_answers.specs.Answers.{number_in};
ghost use Rattle.door_metadata.specs.Merger.{Opening, Merging, finishing_answer};

// Opens a first metadata, which loses its repeats: 0 or 15; `header` becomes the header with the counts that are left.
#[unsafe(no_mangle)]
pub extern "C" fn desk_metadata_open(
    header: &mut [u64],
    symbols: &mut [u32],
    partial: &mut [u32],
    not_found: &mut [u32],
    mappings: &mut [u32],
    intervals: &mut [u32],
) -> u32
    ensures { Opening header.old (lists symbols.old partial.old not_found.old mappings.old
        intervals.old) result header.new
        (lists symbols.new partial.new not_found.new mappings.new intervals.new) }
{
    door_metadata::merger::desk_metadata_open(
        header, symbols, partial, not_found, mappings, intervals,
    )
}

// Merges one more metadata into a gathered one: 0, 15, 6, 11, 3, 1, 7 or 2; `header` becomes the header of both together, `field` is
// set by 6 alone.
#[unsafe(no_mangle)]
pub extern "C" fn desk_metadata_merge(
    names: usize,
    header: &mut [u64],
    symbols: &mut [u32],
    partial: &mut [u32],
    not_found: &mut [u32],
    mappings: &mut [u32],
    intervals: &mut [u32],
    added: &[u64],
    added_symbols: &[u32],
    added_partial: &[u32],
    added_not_found: &[u32],
    added_mappings: &[u32],
    added_intervals: &[u32],
    field: &mut u32,
) -> u32
    ensures { Merging names header.old
        (lists symbols.old partial.old not_found.old mappings.old intervals.old) added.now
        (lists added_symbols.now added_partial.now added_not_found.now added_mappings.now
        added_intervals.now) field.old result header.new
        (lists symbols.new partial.new not_found.new mappings.new intervals.new) field.new }
{
    door_metadata::merger::desk_metadata_merge(
        names,
        header,
        symbols,
        partial,
        not_found,
        mappings,
        intervals,
        added,
        added_symbols,
        added_partial,
        added_not_found,
        added_mappings,
        added_intervals,
        field,
    )
}

// Finishes a gathered metadata, which stays as it is: 0 or 15.
#[unsafe(no_mangle)]
pub extern "C" fn desk_metadata_finish(
    header: &[u64],
    symbols: &[u32],
    partial: &[u32],
    not_found: &[u32],
    mappings: &[u32],
    intervals: &[u32],
) -> u32
    ensures { result ≡ number_in (finishing_answer header.now (lists symbols.now partial.now not_found.now mappings.now intervals.now)) }
{
    door_metadata::merger::desk_metadata_finish(
        header, symbols, partial, not_found, mappings, intervals,
    )
}
