// Many calls at once where streams arrive in portions, at the C door (RULES, Requests, No. 14). Its state is that of the portions.
ghost use Rattle.feed_rules.specs.Spans.{feed_arrays};
ghost use Rattle.door_run.specs.Handing.{numbers};
ghost use Rattle.door_feed_run.specs.Run.{DeskFeedRun};

use door_run::run::hand_made;
use feed_run::run::State;

// At most `allowance` calls of `desk_feed_next`: 0, 13 or 15. Each record's stream, place and time go to the list, three words a record;
// `last` is 1 where a further call may be made, 0 at the end, and 2 where more of a stream is needed, `stream` being that stream; 13 sets
// `stream`, `place` and `reason`, and 15 leaves all as it was.
#[unsafe(no_mangle)]
pub extern "C" fn desk_feed_run(
    window: &[u8],
    marks: &mut [u8],
    times: &mut [u64],
    places: &mut [u64],
    heads: &mut [u64],
    heap: &mut [u8],
    spans: &mut [u64],
    held: &mut usize,
    allowance: usize,
    list: &mut [u64],
    calls: &mut usize,
    written: &mut usize,
    last: &mut u32,
    stream: &mut u64,
    place: &mut u64,
    reason: &mut u64,
) -> u32
    ensures { DeskFeedRun window.now allowance held.old
        (feed_arrays marks.old times.old places.old heads.old heap.old spans.old) list.old
        (numbers calls.old written.old last.old stream.old place.old reason.old) result
        held.new (feed_arrays marks.new times.new places.new heads.new heap.new spans.new) list.new
        (numbers calls.new written.new last.new stream.new place.new reason.new) }
{
    let mut state = State {
        held: *held,
        marks,
        times,
        places,
        heads,
        heap,
    };
    let made = feed_run::run::run(window, &mut state, spans, allowance, list);
    *held = state.held;
    hand_made(made, calls, written, last, stream, place, reason)
}
