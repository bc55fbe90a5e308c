// Cases of the point-in-time table: lookup.
use crate::tables::{expected_at, is_found, room};
use vectors_text::narrow;

// A line `TABLE USED INSTRUMENT = NUMBER FOUND SYMBOL`.
pub fn get(text: &[u8], at: usize) -> bool {
    let mut table = room();
    let given = vectors_text::bytes_at(text, at, &mut table);
    let used = vectors_text::number_at(text, given.next);
    let instrument = vectors_text::number_at(text, used.next);
    let found = map_point::points::get(
        &table[..given.count],
        used.value as usize,
        narrow(instrument.value),
    );
    is_found(found, expected_at(text, instrument.next))
}
