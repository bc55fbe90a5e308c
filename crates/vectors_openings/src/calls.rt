// Cases of opening and of finishing.
use metadata_form::lists::{Lists, ListsMut};
use metadata_open::opening::{finish, open};
use vectors_side::expected::{entries, interval_words, is_expected, mapping_words};
use vectors_side::side_at;

// The calls of cases.
#[derive(Clone, Copy, Debug, PartialEq, Eq)]
pub enum Call {
    Open,
    Finish,
}

// A line `SIDE = NUMBER`, behind 0 the side as it then is.
pub fn is_right(text: &[u8], at: usize, call: Call) -> bool {
    let mut symbols = entries();
    let mut partial = entries();
    let mut not_found = entries();
    let mut mappings = mapping_words();
    let mut intervals = interval_words();
    let side = side_at(
        text,
        at,
        &mut ListsMut {
            symbols: &mut symbols,
            partial: &mut partial,
            not_found: &mut not_found,
            mappings: &mut mappings,
            intervals: &mut intervals,
        },
    );
    let mut part = ListsMut {
        symbols: &mut symbols[..side.symbols],
        partial: &mut partial[..side.partial],
        not_found: &mut not_found[..side.not_found],
        mappings: &mut mappings[..side.mappings],
        intervals: &mut intervals[..side.intervals],
    };
    let said = match call {
        Call::Open => open(side.header, &mut part),
        Call::Finish => finish(side.header, part.shared()),
    };
    let after = Lists {
        symbols: &symbols,
        partial: &partial,
        not_found: &not_found,
        mappings: &mappings,
        intervals: &intervals,
    };
    let behind = vectors_text::past_equals(text, side.next);
    is_expected(text, behind, at, side.header, said, after)
}
