// A case that is a merge of streams with hints: by the heap, then by the plain engine.
use leaves::refusal::Refusal;
use records::engine::{Engine, Heap};
use records::merge::{empty_bytes, empty_numbers, open};
use records_plain::plain::Plain;
use records_state::state::State;
use vectors_merge::{buffer_space, calls_after, calls_left, numbers_space, print_turn, read_case};

// Prints an engine's answers to the end, and one more; or what the opening refused.
fn tell<E: Engine>(
    buffer: &[u8],
    cuts: &[u64],
    state: &mut State<'_>,
    opening: Result<usize, Refusal>,
) {
    let mut calls = calls_after(opening);
    while 0 < calls {
        let answer = E::next(buffer, cuts, state);
        calls = calls_left(calls, print_turn(answer));
    }
}

// The answers of both engines, each on arrays that its own opening laid.
pub fn both(buffer: &[u8], cuts: &[u64], hints: &[u64]) {
    let mut marks = empty_bytes();
    let mut times = empty_numbers();
    let mut places = empty_numbers();
    let mut heads = empty_numbers();
    let mut heap = empty_bytes();
    let mut state = State {
        held: 0,
        marks: &mut marks,
        times: &mut times,
        places: &mut places,
        heads: &mut heads,
        heap: &mut heap,
    };
    let opening = open(buffer, cuts, hints, &mut state);
    tell::<Heap>(buffer, cuts, &mut state, opening);
    io::write_all(1, b"plain\n");
    plainly(buffer, cuts, hints);
}

// The plain engine's answers.
fn plainly(buffer: &[u8], cuts: &[u64], hints: &[u64]) {
    let mut marks = empty_bytes();
    let mut times = empty_numbers();
    let mut places = empty_numbers();
    let mut heads = empty_numbers();
    let mut heap = empty_bytes();
    let opening = records_plain::plain::open(
        buffer,
        cuts,
        hints,
        &mut marks,
        &mut times,
        &mut places,
        &mut heads,
    );
    let mut state = State {
        held: opening.unwrap_or(0),
        marks: &mut marks,
        times: &mut times,
        places: &mut places,
        heads: &mut heads,
        heap: &mut heap,
    };
    tell::<Plain>(buffer, cuts, &mut state, opening);
}

// Runs the case at a place, hints, cuts and the buffer.
pub fn run<F: FnOnce(&[u8], &[u64], &[u64])>(text: &[u8], at: usize, show: F)
    requires { F.IsAlwaysCallable show }
{
    let mut hints = numbers_space();
    let mut cuts = numbers_space();
    let mut buffer = buffer_space();
    let case = read_case(text, at, &mut hints, &mut cuts, &mut buffer);
    show(
        &buffer[..case.bytes],
        &cuts[..case.second],
        &hints[..case.first],
    );
}
