// The call that a line holds, on memory that is lent.
use feed::turns::next;
use feed_run::run::State;
use feed_window::portions::end;
use vectors_merge::print_line;
use vectors_portions::answers::{print_ended, print_fed, print_word};
use vectors_portions::lines::{add_line, lay_line, open_line, print_at, run_line};

// Runs the call that a line holds.
pub fn call_line(
    text: &[u8],
    at: usize,
    state: &mut State<'_>,
    spans: &mut [u64],
    window: &mut [u8],
) {
    let rest = vectors_text::past(text, at);
    match vectors_text::byte_at(text, at) {
        b'o' => open_line(text, rest, state, spans),
        b'n' => print_fed(window, next(window, state, spans)),
        b'r' => run_line(text, rest, state, spans, window),
        b'a' => add_line(text, rest, state, spans, window),
        b'e' => {
            let stream = vectors_text::number_at(text, rest);
            print_ended(end(stream.value, state.marks, spans));
        }
        b'l' => lay_line(text, rest, state.places),
        b'x' => {
            io::write_all(1, b"few\n");
        }
        b'h' => print_word(b"held", state.held as u64),
        b'w' => {
            let stream = vectors_text::number_at(text, rest);
            print_at(spans, stream.value);
        }
        b'=' => print_line(text, rest),
        _ => {}
    }
}
