// The next answer where streams arrive in portions (RULES, Requests, No. 5), over the heap of `records`. A call reads the window and
// writes nothing to it.
ghost use Rattle.std.specs.Prelude.{◌≡◌, ◌<◌, Ok};
ghost use Rattle.feed_rules.specs.Spans.{handed_out, FedSays, FeedNext};
ghost use Rattle.feed_window.specs.Spans.{span_number};
ghost use Rattle.records_state.specs.Lent.{SameMemory};
ghost use Rattle.feed.specs.Lent.{feed_arrays_of, HasFeedRoom};
ghost use Rattle.feed.specs.Answers.{fed_of};

use crate::lent::{State, fits};
use feed_window::spans::{Span, WINDOW, read_window};
use leaves::refusal::Refusal;
use records::merge::{Record, handed, plus};
use records_state::state::{EMPTY, TWO_BYTES, WAITING};

// What a call answers: a record, with the index in the window at which its bytes stand; the end; or that more of a stream is needed
// first.
#[derive(Clone, Copy, Debug, PartialEq, Eq)]
pub enum Fed {
    Record { record: Record, at: u64 },
    End,
    NeedMore(u64),
}

// The answer that hands out the record that a stream stands at.
fn hand_out(stream: usize, place: u64, span: Span, head: u64, time: u64) -> Fed
    requires { stream < 256 }
    ensures { fed_of (Ok result) ≡ handed_out stream place (span_number span) head time }
{
    Fed::Record {
        record: handed(stream, place, head, time),
        at: WINDOW * (stream as u64) + u64::from(span.start),
    }
}

// A call, on arrays that have the room: the heap's root is read where it waits, and handed out where it stands. It is safe and ends
// whatever the arrays hold.
pub fn turns(window: &[u8], state: &mut State<'_>, spans: &mut [u64]) -> Result<Fed, Refusal>
    requires { HasFeedRoom state.old spans.old }
    ensures memory { SameMemory state.old state.new }
    ensures says { FedSays window.now state.old.held (feed_arrays_of state.old spans.old) (fed_of result) state.new.held (feed_arrays_of state.new spans.new) }
{
    while 0 < state.held {
        let p = state.heap[0] as usize;
        let place = state.places[p];
        let head = state.heads[p];
        let length = head % TWO_BYTES;
        let span = Span::from(spans[p]);
        if state.marks[p] != WAITING {
            let record = hand_out(p, place, span, head, state.times[p]);
            state.marks[p] = WAITING;
            state.places[p] = plus(place, length);
            state.heads[p] = length;
            return Ok(record);
        }
        let got = read_window(window, p, span, length);
        let Some(found) = got.found else {
            state.heads[p] = EMPTY;
            spans[p] = u64::from(got.span);
            return Ok(Fed::NeedMore(p as u64));
        };
        match found {
            Ok(Some(head)) => {
                spans[p] = u64::from(got.span);
                state.stand(p, head);
                state.sift_down(0);
            }
            Ok(None) => state.remove_root(),
            Err(reason) => {
                state.remove_root();
                return Err(Refusal::Damaged {
                    stream: p as u64,
                    place,
                    reason,
                });
            }
        }
    }
    Ok(Fed::End)
}

// The next record, the damage of a stream, the end, or that more of a stream is needed first. 15 leaves everything as it was, and so does
// a second call after one that needs more, where nothing has come.
pub fn next(window: &[u8], state: &mut State<'_>, spans: &mut [u64]) -> Result<Fed, Refusal>
    ensures memory { SameMemory state.old state.new }
    ensures says { FeedNext window.now state.old.held (feed_arrays_of state.old spans.old) (fed_of result) state.new.held (feed_arrays_of state.new spans.new) }
{
    if !fits(window, state, spans) {
        return Err(Refusal::BadMemory);
    }
    turns(window, state, spans)
}
