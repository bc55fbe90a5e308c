// What is lent where streams arrive in portions (RULES, Requests, No. 5): the state of whole buffers, and a span a stream beside it. The
// head of a stream that waits has the length of the record that it handed out last and that still counts, or 0.
ghost use Rattle.std.specs.Prelude.{◌≡◌};
ghost use Rattle.feed_rules.specs.Spans.{feed_fits, feed_fit_in};
ghost use Rattle.feed_rules.specs.Adding.{open_fit_in};
ghost use Rattle.feed.specs.Lent.{feed_arrays_of};

use feed_window::spans::{PLACES, WINDOW_BYTES};
pub use records_state::state::State;
use records_state::state::arrays_fit;

// The state and the spans stay two: tried as one struct that holds the state, what a caller lent is not known after a call.

// Whether all six arrays have 256 places; where not, an opening gets 15.
pub fn has_places(state: &State<'_>, spans: &[u64]) -> bool
    ensures { result ≡ open_fit_in (feed_arrays_of state.now spans.now) }
{
    state.has_places() && spans.len() == PLACES
}

// Whether what is lent fits, by its lengths: arrays of 256 places, no more of the heap in use, and a window of 1,024 bytes a stream;
// where not, a call gets 15.
#[tactic(auto, unfolding(feed_rules::specs::Spans::feed_fits))]
pub fn feed_fits(
    held: usize,
    marks: usize,
    times: usize,
    places: usize,
    heads: usize,
    heap: usize,
    spans: usize,
    window: usize,
) -> bool
    ensures { result ≡ feed_fits held marks times places heads heap spans window }
{
    arrays_fit(held, marks, times, places, heads, heap) && spans == PLACES && window == WINDOW_BYTES
}

// The same of the memory itself.
pub fn fits(window: &[u8], state: &State<'_>, spans: &[u64]) -> bool
    ensures { result ≡ feed_fit_in state.now.held window.now (feed_arrays_of state.now spans.now) }
{
    feed_fits(
        state.held,
        state.marks.len(),
        state.times.len(),
        state.places.len(),
        state.heads.len(),
        state.heap.len(),
        spans.len(),
        window.len(),
    )
}
