// The opening of streams that arrive in portions (RULES, Requests, No. 5): each waits at its hint, and nothing of it has come.
ghost use Rattle.std.specs.Prelude.{◌≡◌};
ghost use Rattle.std.specs.Result.{OnErr};
ghost use Rattle.feed_rules.specs.Adding.{right_count, FeedOpens};
ghost use Rattle.records_state.specs.Lent.{SameMemory};
ghost use Rattle.feed.specs.Lent.{feed_arrays_of};
ghost use Rattle.feed.specs.Answers.{opened_of};

use crate::lent::{State, has_places};
use feed_window::spans::PLACES;
use leaves::refusal::Refusal;
use records_state::state::EMPTY;

// Whether the streams are right: at least one and at most 256, and no hint or one a stream; where not, 12.
fn count_right(streams: usize, hints: usize) -> bool
    ensures { result ≡ right_count streams hints }
{
    1 <= streams && streams <= PLACES && (hints == 0 || hints == streams)
}

// Opens so many streams of which nothing has come, each at its hint, and answers how many there are; the heap holds all of them. A refusal
// leaves everything as it was.
pub fn open(
    streams: usize,
    hints: &[u64],
    state: &mut State<'_>,
    spans: &mut [u64],
) -> Result<usize, Refusal>
    ensures memory { SameMemory state.old state.new }
    ensures refused { OnErr result ((state.new ≡ state.old) × (spans.new ≡ spans.old)) }
    ensures says { FeedOpens streams hints.now (feed_arrays_of state.old spans.old) (opened_of state.new.held result) (feed_arrays_of state.new spans.new) }
{
    if !has_places(state, spans) {
        return Err(Refusal::BadMemory);
    }
    if !count_right(streams, hints.len()) {
        return Err(Refusal::BadStreams);
    }
    state.lay_streams(streams, hints);
    state.heapify();
    spans.fill(EMPTY);
    Ok(streams)
}
