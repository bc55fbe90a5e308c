// The calls that lines hold, on memory that is lent.
ghost use Rattle.std.specs.Prelude.{◌≡◌, ◌≤◌, length};

use crate::answers;
use feed::opening::open;
use feed_run::run::{State, run};
use feed_window::portions::add;
use feed_window::spans::{Span, WINDOW};
use records_state::state::entry_or_zero;
use vectors_merge::runs::list_space;
use vectors_merge::{front, numbers_space, read_numbers};

// Room for a portion: 9s.
fn portion_space() -> [u8; 2048]
    ensures { 2048 ≡ length result }
{
    [9; 2048]
}

// Where a stream's span begins in the window.
pub fn print_at(spans: &[u64], stream: u64) {
    if stream < 256 {
        let span = Span::from(entry_or_zero(spans, stream as usize));
        answers::print_word(b"at", WINDOW * stream + u64::from(span.start));
    }
}

// Room for the window.
pub fn window_space() -> [u8; 262144]
    ensures { 262144 ≡ length result }
{
    [0; 262144]
}

// Hands in the portion that a line holds.
pub fn add_line(text: &[u8], at: usize, state: &State<'_>, spans: &mut [u64], window: &mut [u8]) {
    let mut portion = portion_space();
    let stream = vectors_text::number_at(text, at);
    let size = vectors_text::number_at(text, stream.next);
    vectors_text::bytes_at(text, size.next, &mut portion);
    let added = add(
        stream.value,
        front(size.value, &portion),
        state.marks,
        state.places,
        state.heads,
        spans,
        window,
    );
    answers::print_answer(b"taken", added);
}

// Opens the streams that a line holds.
pub fn open_line(text: &[u8], at: usize, state: &mut State<'_>, spans: &mut [u64]) {
    let mut hints = numbers_space();
    let streams = vectors_text::number_at(text, at);
    let hinted = read_numbers(text, streams.next, &mut hints);
    let opened = open(streams.value as usize, &hints[..hinted.count], state, spans);
    answers::print_answer(b"opened", opened.map(|count| count as u64));
}

// So many words of a run's list, or none where it has fewer.
pub fn words_of(asked: u64) -> usize
    ensures { result ≤ 12288 }
{
    if asked <= 12288 { asked as usize } else { 0 }
}

// Makes the run that a line holds, with a list of 9s.
pub fn run_line(text: &[u8], at: usize, state: &mut State<'_>, spans: &mut [u64], window: &[u8]) {
    let mut list = list_space();
    let allowance = vectors_text::number_at(text, at);
    let asked = vectors_text::number_at(text, allowance.next);
    let words = words_of(asked.value);
    let made = run(
        window,
        state,
        spans,
        allowance.value as usize,
        &mut list[..words],
    );
    answers::print_ran(made, front(asked.value, &list));
}

// Lays the place of stream 0.
pub fn lay_line(text: &[u8], at: usize, places: &mut [u64]) {
    let place = vectors_text::number_at(text, at);
    io::write_all(1, b"laid\n");
    if let Some(first) = places.first_mut() {
        *first = place.value;
    }
}
