// Runs the calls that stand on standard input, one to a line, over `feed` and `feed_run`, and prints what they answer.
// `= NAME` names what follows, and is printed. `o STREAMS COUNT hint..` opens streams; `a STREAM SIZE HEX` hands in a portion of so many
// bytes, those of HEX and then 9s; `e STREAM` says that a stream has ended; `n` asks for the next answer; `r ALLOWANCE WORDS` makes a run
// with a list of so many words, each of which holds 9, and prints its calls, the records that it wrote, how it stopped, and the first
// nine words of its list; `h` prints how many streams the heap holds, `w STREAM` where what is kept of a stream begins in the window;
// `l PLACE` lays the place of stream 0; what follows `x` runs on marks of 255 places.
#![tactic(auto)]

mod calls;

use crate::calls::call_line;
use feed_run::run::State;
use records::merge::{empty_bytes, empty_numbers};
use vectors_merge::few_bytes;
use vectors_portions::lines::window_space;

// Runs the lines of the text on these marks and on memory of its own.
fn run(text: &[u8], marks: &mut [u8]) {
    let mut times = empty_numbers();
    let mut places = empty_numbers();
    let mut heads = empty_numbers();
    let mut heap = empty_bytes();
    let mut spans = empty_numbers();
    let mut window = window_space();
    let mut state = State {
        held: 0,
        marks,
        times: &mut times,
        places: &mut places,
        heads: &mut heads,
        heap: &mut heap,
    };
    let mut at = 0;
    while at < text.len() {
        call_line(text, at, &mut state, &mut spans, &mut window);
        at = vectors_text::next_line(text, at);
    }
}

// Runs the lines of the text, those from `x` on on too few marks.
fn run_text(text: &[u8]) {
    let mut marks = empty_bytes();
    let mut few = few_bytes();
    let at = vectors_text::group_from(text, 0, b"x");
    if at <= text.len() {
        run(&text[..at], &mut marks);
        run(&text[at..], &mut few);
    }
}

fn main() {
    let mut data = vectors_text::data_room();
    let n = io::read_full(0, &mut data);
    run_text(&data[..n]);
}
