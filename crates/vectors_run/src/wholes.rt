// Runs over whole buffers.
use records::merge::{empty_bytes, empty_numbers, open};
use records_run::run::State;
use vectors_merge::runs::list_space;
use vectors_merge::{buffer_space, calls_after, front, numbers_space, read_case};
use vectors_portions::answers::print_ran;
use vectors_portions::lines::words_of;

// Opens the streams, with no hint and with arrays of its own, and makes the runs that pairs of numbers ask for.
fn runs(buffer: &[u8], cuts: &[u64], pairs: &[u64]) {
    let mut marks = empty_bytes();
    let mut times = empty_numbers();
    let mut places = empty_numbers();
    let mut heads = empty_numbers();
    let mut heap = empty_bytes();
    let mut state = State {
        held: 0,
        marks: &mut marks,
        times: &mut times,
        places: &mut places,
        heads: &mut heads,
        heap: &mut heap,
    };
    let opening = open(buffer, cuts, &cuts[..0], &mut state);
    calls_after(opening);
    for pair in pairs.chunks_exact(2) {
        let mut list = list_space();
        let words = words_of(pair[1]);
        let allowance = pair[0] as usize;
        let made = records_run::run::run(buffer, cuts, &mut state, allowance, &mut list[..words]);
        print_ran(made, front(pair[1], &list));
    }
}

// Runs the case at a place: cuts, pairs and the buffer.
pub fn run(text: &[u8], at: usize) {
    let mut cuts = numbers_space();
    let mut pairs = numbers_space();
    let mut buffer = buffer_space();
    let case = read_case(text, at, &mut cuts, &mut pairs, &mut buffer);
    runs(
        &buffer[..case.bytes],
        &cuts[..case.first],
        &pairs[..case.second],
    );
}
