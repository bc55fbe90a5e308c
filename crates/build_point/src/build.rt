// The point-in-time build from metadata (RULES, The map over time). A metadata is a header by value and five lent lists of words, as in
// the metadata merge; a name list is lent bytes and ends, with the names and the bytes in use; the table is lent bytes, 8 an entry,
// whatever it held.
ghost use Rattle.std.specs.Prelude.{◌≡◌, length};
ghost use Rattle.theory.specs.Answer.{one_value};
ghost use Rattle.leaves.specs.Refusal.{answer_with};
ghost use Rattle.metadata_form.specs.Header.{lent};
ghost use Rattle.build_point.specs.Build.{point_in_time_answer, point_in_time_memory};

use crate::begin::begin;
use crate::mappings::lay_mappings;
use build_rules::call::{lent_names, settle};
use leaves::refusal::Refusal;
use leaves_names::names::NameList;
use map_point::points::points_fit;
use metadata_form::header::Header;
use metadata_form::lists::Lists;
use metadata_words::words::Mappings;

// The point-in-time table of a metadata for a date: 15; 14 for the name list; 11 for the date, 9, 10; then the mappings in order, each
// 11, 3, the skip, 3, 8, 2. A refused build leaves 0 in every place.
pub fn point_in_time(
    table: &mut [u8],
    header: Header,
    lists: Lists<'_>,
    list: NameList<'_>,
    date: u32,
) -> Result<usize, Refusal>
    ensures answered { answer_with one_value result ≡ point_in_time_answer (length table.old) header (lent lists.entry)
        list.entry.bytes.now list.entry.ends.now list.entry.names list.entry.name_bytes date }
    ensures memory { table.new ≡ point_in_time_memory (length table.old) header (lent lists.entry)
        list.entry.bytes.now list.entry.ends.now list.entry.names list.entry.name_bytes date }
{
    let of_form = points_fit(table.len(), 0);
    table.fill(0);
    let names = lent_names(of_form, header, lists, list)?;
    let start = begin(header, date)?;
    let mappings = Mappings {
        words: lists.mappings,
        count: header.mappings,
        intervals: lists.intervals,
    };
    let laid = lay_mappings(table, names, start, mappings);
    settle(table, laid)
}
