// The plain engine (RULES, Requests, No. 12) on memory that is not right.
use leaves::refusal::Refusal;
use records::merge::{empty_bytes, empty_numbers};
use records_plain::plain::{next, open};
use records_state::state::State;
use vectors_merge::{few_bytes, print_number, print_refusal, print_turn};

// One stream more than there may be.
const OVER: usize = 257;

// The state in these arrays.
fn lent<'a>(
    held: usize,
    marks: &'a mut [u8],
    times: &'a mut [u64],
    places: &'a mut [u64],
    heads: &'a mut [u64],
    heap: &'a mut [u8],
) -> State<'a> {
    State {
        held,
        marks,
        times,
        places,
        heads,
        heap,
    }
}

// Prints what an opening answers: the streams, all of which are held.
fn print_opened(opening: Result<usize, Refusal>) {
    match opening {
        Ok(streams) => {
            io::write_all(1, b"opened");
            print_number(streams as u64);
            print_number(streams as u64);
            io::write_all(1, b"\n");
        }
        Err(refusal) => print_refusal(refusal),
    }
}

// Calls once on what is lent, and prints the answer.
fn print_next(buffer: &[u8], cuts: &[u64], mut state: State<'_>) {
    print_turn(next(buffer, cuts, &mut state));
}

// An opening and a call on too few marks, and a call with too many streams, get 15 each; the opening and the call beside them, of one
// stream, show that nothing was touched.
pub fn wrong(buffer: &[u8], cuts: &[u64], hints: &[u64]) {
    let few = &mut few_bytes();
    let marks = &mut empty_bytes();
    let times = &mut empty_numbers();
    let places = &mut empty_numbers();
    let heads = &mut empty_numbers();
    let heap = &mut empty_bytes();
    print_opened(open(buffer, cuts, hints, few, times, places, heads));
    print_opened(open(buffer, cuts, hints, marks, times, places, heads));
    print_next(buffer, cuts, lent(1, few, times, places, heads, heap));
    print_next(buffer, cuts, lent(OVER, marks, times, places, heads, heap));
    print_next(buffer, cuts, lent(1, marks, times, places, heads, heap));
}
