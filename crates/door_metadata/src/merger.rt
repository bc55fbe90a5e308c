// The metadata merge at the C door (RULES, Merging metadata). A metadata is fourteen words, its header, and five lists of words:
// symbols, partial, not_found (a word an entry), mappings (two words each: name, number of intervals) and intervals (three words
// each: start date, end date, symbol).
ghost use Rattle.std.specs.Prelude.{◌≡◌};
ghost use Rattle.leaves.specs.Refusal.{refused};
ghost use Rattle.metadata_form.specs.Header.{lists};
ghost use Rattle.door_answers.specs.Answers.{number_in};
ghost use Rattle.door_metadata.specs.Merger.{field_in, Opening, Merging, finishing_answer};

use door_answers::header::{header_of, put_header};
use door_answers::{BAD_MEMORY, DONE};
use leaves::refusal::Refusal;
use metadata_form::lists::{Lists, ListsMut};
use metadata_merge::merger::merge;
use metadata_open::opening::{finish, open};

// The field that comes with a refusal, or what is held.
fn field_in(refusal: Refusal, held: u32) -> u32
    ensures { result ≡ field_in held (refused refusal) }
{
    match refusal {
        Refusal::Differ(field) => field.number(),
        _ => held,
    }
}

// Opens a first metadata, which loses its repeats: 0 or 15; `header` becomes the header with the counts that are left.
#[unsafe(no_mangle)]
pub extern "C" fn desk_metadata_open(
    header: &mut [u64],
    symbols: &mut [u32],
    partial: &mut [u32],
    not_found: &mut [u32],
    mappings: &mut [u32],
    intervals: &mut [u32],
) -> u32
    ensures { Opening header.old (lists symbols.old partial.old not_found.old mappings.old
        intervals.old) result header.new
        (lists symbols.new partial.new not_found.new mappings.new intervals.new) }
{
    let Some(h) = header_of(header) else {
        return BAD_MEMORY;
    };
    let mut lists = ListsMut {
        symbols,
        partial,
        not_found,
        mappings,
        intervals,
    };
    match open(h, &mut lists) {
        Ok(opened) => {
            put_header(header, opened);
            DONE
        }
        Err(refusal) => refusal.number(),
    }
}

// Merges one more metadata into a gathered one: 0, 15, 6, 11, 3, 1, 7 or 2; `header` becomes the header of both together, `field` is
// set by 6 alone.
#[unsafe(no_mangle)]
pub extern "C" fn desk_metadata_merge(
    names: usize,
    header: &mut [u64],
    symbols: &mut [u32],
    partial: &mut [u32],
    not_found: &mut [u32],
    mappings: &mut [u32],
    intervals: &mut [u32],
    added: &[u64],
    added_symbols: &[u32],
    added_partial: &[u32],
    added_not_found: &[u32],
    added_mappings: &[u32],
    added_intervals: &[u32],
    field: &mut u32,
) -> u32
    ensures { Merging names header.old
        (lists symbols.old partial.old not_found.old mappings.old intervals.old) added.now
        (lists added_symbols.now added_partial.now added_not_found.now added_mappings.now
        added_intervals.now) field.old result header.new
        (lists symbols.new partial.new not_found.new mappings.new intervals.new) field.new }
{
    let Some(h) = header_of(header) else {
        return BAD_MEMORY;
    };
    let Some(g) = header_of(added) else {
        return BAD_MEMORY;
    };
    let mut gathered = ListsMut {
        symbols,
        partial,
        not_found,
        mappings,
        intervals,
    };
    let more = Lists {
        symbols: added_symbols,
        partial: added_partial,
        not_found: added_not_found,
        mappings: added_mappings,
        intervals: added_intervals,
    };
    match merge(names, h, &mut gathered, g, more) {
        Ok(merged) => {
            put_header(header, merged);
            DONE
        }
        Err(refusal) => {
            *field = field_in(refusal, *field);
            refusal.number()
        }
    }
}

// Finishes a gathered metadata, which stays as it is: 0 or 15.
#[unsafe(no_mangle)]
pub extern "C" fn desk_metadata_finish(
    header: &[u64],
    symbols: &[u32],
    partial: &[u32],
    not_found: &[u32],
    mappings: &[u32],
    intervals: &[u32],
) -> u32
    ensures { result ≡ number_in (finishing_answer header.now (lists symbols.now partial.now not_found.now mappings.now intervals.now)) }
{
    let Some(h) = header_of(header) else {
        return BAD_MEMORY;
    };
    let gathered = Lists {
        symbols,
        partial,
        not_found,
        mappings,
        intervals,
    };
    match finish(h, gathered) {
        Ok(_) => DONE,
        Err(refusal) => refusal.number(),
    }
}
