// Cases of the merge. The side that is merged in must be as it was, whatever the answer.
use metadata_form::lists::{Lists, ListsMut};
use metadata_merge::merger::merge;
use vectors_side::expected::{entries, interval_words, is_expected, mapping_words};
use vectors_side::{is_side, side_at};

// A line `NAMES SIDE SIDE = NUMBER`, behind 0 the first side as it then is, behind 6 the field.
pub fn is_right(text: &[u8], at: usize) -> bool {
    let mut symbols = entries();
    let mut partial = entries();
    let mut not_found = entries();
    let mut mappings = mapping_words();
    let mut intervals = interval_words();
    let names = vectors_text::number_at(text, at);
    let side = side_at(
        text,
        names.next,
        &mut ListsMut {
            symbols: &mut symbols,
            partial: &mut partial,
            not_found: &mut not_found,
            mappings: &mut mappings,
            intervals: &mut intervals,
        },
    );
    let mut added_symbols = entries();
    let mut added_partial = entries();
    let mut added_not_found = entries();
    let mut added_mappings = mapping_words();
    let mut added_intervals = interval_words();
    let added = side_at(
        text,
        side.next,
        &mut ListsMut {
            symbols: &mut added_symbols,
            partial: &mut added_partial,
            not_found: &mut added_not_found,
            mappings: &mut added_mappings,
            intervals: &mut added_intervals,
        },
    );
    let mut part = ListsMut {
        symbols: &mut symbols[..side.symbols],
        partial: &mut partial[..side.partial],
        not_found: &mut not_found[..side.not_found],
        mappings: &mut mappings[..side.mappings],
        intervals: &mut intervals[..side.intervals],
    };
    let added_lists = Lists {
        symbols: &added_symbols,
        partial: &added_partial,
        not_found: &added_not_found,
        mappings: &added_mappings,
        intervals: &added_intervals,
    };
    let said = merge(
        names.value as usize,
        side.header,
        &mut part,
        added.header,
        added.part(added_lists),
    );
    let after = Lists {
        symbols: &symbols,
        partial: &partial,
        not_found: &not_found,
        mappings: &mappings,
        intervals: &intervals,
    };
    let behind = vectors_text::past_equals(text, added.next);
    let kept = is_side(text, side.next, added.header, added_lists);
    kept && is_expected(text, behind, names.next, side.header, said, after)
}
