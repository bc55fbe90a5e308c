// Both builds from metadata at the C door (RULES, The map over time). A metadata is fourteen words, its header, and five lists of words,
// as in the metadata merge. A build discards what the table held; a refused one leaves it empty, 0 in every place.
ghost use Rattle.std.specs.Prelude.{◌≡◌, length};
ghost use Rattle.theory.specs.Answer.{one_value};
ghost use Rattle.leaves.specs.Refusal.{answer_with};
ghost use Rattle.metadata_form.specs.Header.{lists};
ghost use Rattle.build_time.specs.OverTime.{over_time_answer, over_time_memory};
ghost use Rattle.build_point.specs.Build.{point_in_time_answer, point_in_time_memory};
ghost use Rattle.door_answers.specs.Answers.{number_in, value_in};
ghost use Rattle.door_builds.specs.Build.{Building};

use build_point::build::point_in_time;
use build_time::over_time::over_time;
use door_answers::header::header_of;
use door_answers::{BAD_MEMORY, DONE};
use leaves::refusal::Refusal;
use leaves_names::names::NameList;
use metadata_form::lists::Lists;

// The number of what a build came to; `used` becomes the places in use, 0 on a refusal.
fn told(used: &mut usize, built: Result<usize, Refusal>) -> u32
    ensures returns { result ≡ number_in (answer_with one_value built) }
    ensures counts { used.new ≡ value_in 0 0 (answer_with one_value built) }
{
    match built {
        Ok(places) => {
            *used = places;
            DONE
        }
        Err(refusal) => {
            *used = 0;
            refusal.number()
        }
    }
}

// Builds a table over time: 0, 15, 14, 9, 3, 8, 11, 1 or 2; `used` becomes the intervals in use, 0 on a refusal.
#[unsafe(no_mangle)]
pub extern "C" fn desk_build(
    table: &mut [u8],
    used: &mut usize,
    header: &[u64],
    symbols: &[u32],
    partial: &[u32],
    not_found: &[u32],
    mappings: &[u32],
    intervals: &[u32],
    bytes: &[u8],
    ends: &[u32],
    names: usize,
    name_bytes: usize,
) -> u32
    ensures { Building (length table.old) header.now
        (λ h. over_time_answer table.old h (lists symbols.now partial.now not_found.now mappings.now
        intervals.now) bytes.now ends.now names name_bytes)
        (λ h. over_time_memory table.old h (lists symbols.now partial.now not_found.now mappings.now
        intervals.now) bytes.now ends.now names name_bytes) result used.new table.new }
{
    let Some(h) = header_of(header) else {
        *used = 0;
        table.fill(0);
        return BAD_MEMORY;
    };
    let lists = Lists {
        symbols,
        partial,
        not_found,
        mappings,
        intervals,
    };
    let list = NameList {
        bytes,
        ends,
        names,
        name_bytes,
    };
    told(used, over_time(table, h, lists, list))
}

// Builds a point-in-time table for a date: 0, 15, 14, 11, 9, 10, 3, 8 or 2; `used` becomes the entries in use, 0 on a refusal.
#[unsafe(no_mangle)]
pub extern "C" fn desk_build_points(
    table: &mut [u8],
    used: &mut usize,
    header: &[u64],
    symbols: &[u32],
    partial: &[u32],
    not_found: &[u32],
    mappings: &[u32],
    intervals: &[u32],
    bytes: &[u8],
    ends: &[u32],
    names: usize,
    name_bytes: usize,
    date: u32,
) -> u32
    ensures { Building (length table.old) header.now
        (λ h. point_in_time_answer (length table.old) h
        (lists symbols.now partial.now not_found.now mappings.now intervals.now) bytes.now
        ends.now names name_bytes date) (λ h. point_in_time_memory (length table.old) h
        (lists symbols.now partial.now not_found.now mappings.now intervals.now) bytes.now
        ends.now names name_bytes date) result used.new table.new }
{
    let Some(h) = header_of(header) else {
        *used = 0;
        table.fill(0);
        return BAD_MEMORY;
    };
    let lists = Lists {
        symbols,
        partial,
        not_found,
        mappings,
        intervals,
    };
    let list = NameList {
        bytes,
        ends,
        names,
        name_bytes,
    };
    told(used, point_in_time(table, h, lists, list, date))
}
