// Streams that arrive in portions, at the C door (RULES, Requests, No. 5). The state is that of the record merge, a span a stream beside
// it, and the window of 1,024 bytes a stream.
ghost use Rattle.feed_rules.specs.Spans.{feed_arrays};
ghost use Rattle.feed.specs.Answers.{fed_of};
ghost use Rattle.door_feed.specs.Handing.{numbers, FedHanded, DeskFeedNext, DeskFeedOpen, DeskFeedBytes, DeskFeedEnd};

use door_answers::DONE;
use door_answers::damage::hand_damage;
use feed::lent::State;
use feed::turns::Fed;
use leaves::refusal::Refusal;

// Opens so many streams of which nothing has come, each at its hint: 0, 15 or 12; `held` becomes the streams that the heap holds.
#[unsafe(no_mangle)]
pub extern "C" fn desk_feed_open(
    streams: usize,
    hints: &[u64],
    marks: &mut [u8],
    times: &mut [u64],
    places: &mut [u64],
    heads: &mut [u64],
    heap: &mut [u8],
    spans: &mut [u64],
    held: &mut usize,
) -> u32
    ensures { DeskFeedOpen streams hints.now
        (feed_arrays marks.old times.old places.old heads.old heap.old spans.old)
        held.old result held.new
        (feed_arrays marks.new times.new places.new heads.new heap.new spans.new) }
{
    let mut state = State {
        held: *held,
        marks,
        times,
        places,
        heads,
        heap,
    };
    match feed::opening::open(streams, hints, &mut state, spans) {
        Ok(_) => {
            *held = state.held;
            DONE
        }
        Err(refusal) => refusal.number(),
    }
}

// Hands in a portion of a stream: 0, 15 or 12; `taken` becomes the number of its bytes that were taken.
#[unsafe(no_mangle)]
pub extern "C" fn desk_feed_bytes(
    stream: u64,
    portion: &[u8],
    marks: &[u8],
    places: &[u64],
    heads: &[u64],
    spans: &mut [u64],
    window: &mut [u8],
    taken: &mut usize,
) -> u32
    ensures { DeskFeedBytes window.old marks.now places.now heads.now spans.old stream portion.now
        taken.old result taken.new window.new spans.new }
{
    match feed_window::portions::add(stream, portion, marks, places, heads, spans, window) {
        Ok(n) => {
            *taken = n as usize;
            DONE
        }
        Err(refusal) => refusal.number(),
    }
}

// Says that a stream has ended: 0, 15 or 12.
#[unsafe(no_mangle)]
pub extern "C" fn desk_feed_end(stream: u64, marks: &[u8], spans: &mut [u64]) -> u32
    ensures { DeskFeedEnd marks.now spans.old stream result spans.new }
{
    match feed_window::portions::end(stream, marks, spans) {
        Ok(()) => DONE,
        Err(refusal) => refusal.number(),
    }
}

// Hands over what a call answered, and answers its number: a record has `found` 1; the end has 0 and its numbers 0; where more is needed
// `found` is 2, `stream` that stream and the other numbers 0; 13 sets `stream`, `place` and `reason`.
fn hand_fed(
    answer: Result<Fed, Refusal>,
    found: &mut u32,
    stream: &mut u64,
    place: &mut u64,
    index: &mut usize,
    long: &mut u16,
    kind: &mut u16,
    instrument: &mut u32,
    time: &mut u64,
    reason: &mut u64,
) -> u32
    ensures { FedHanded (fed_of answer) result
        (numbers found.old stream.old place.old index.old long.old kind.old instrument.old time.old reason.old)
        (numbers found.new stream.new place.new index.new long.new kind.new instrument.new time.new reason.new) }
{
    match answer {
        Ok(Fed::Record { record, at }) => {
            *found = 1;
            *stream = record.stream;
            *place = record.place;
            *index = at as usize;
            *long = record.length;
            *kind = record.kind;
            *instrument = record.instrument;
            *time = record.time;
            DONE
        }
        Ok(Fed::End) => {
            *found = 0;
            *stream = 0;
            *place = 0;
            *index = 0;
            *long = 0;
            *kind = 0;
            *instrument = 0;
            *time = 0;
            DONE
        }
        Ok(Fed::NeedMore(s)) => {
            *found = 2;
            *stream = s;
            *place = 0;
            *index = 0;
            *long = 0;
            *kind = 0;
            *instrument = 0;
            *time = 0;
            DONE
        }
        Err(refusal) => {
            hand_damage(refusal, stream, place, reason);
            refusal.number()
        }
    }
}

// The next record, the damage of a stream, the end, or that more of a stream is needed first: 0, 13 or 15. A record has `found` 1, and
// its bytes stand in the window from `index` on; the end has 0 and its numbers 0; where more is needed `found` is 2, `stream` that
// stream and the other numbers 0; 13 sets `stream`, `place` and `reason`; 15 leaves all as it was.
#[unsafe(no_mangle)]
pub extern "C" fn desk_feed_next(
    window: &[u8],
    marks: &mut [u8],
    times: &mut [u64],
    places: &mut [u64],
    heads: &mut [u64],
    heap: &mut [u8],
    spans: &mut [u64],
    held: &mut usize,
    found: &mut u32,
    stream: &mut u64,
    place: &mut u64,
    index: &mut usize,
    long: &mut u16,
    kind: &mut u16,
    instrument: &mut u32,
    time: &mut u64,
    reason: &mut u64,
) -> u32
    ensures { DeskFeedNext window.now held.old
        (feed_arrays marks.old times.old places.old heads.old heap.old spans.old)
        (numbers found.old stream.old place.old index.old long.old kind.old instrument.old time.old reason.old)
        result held.new
        (feed_arrays marks.new times.new places.new heads.new heap.new spans.new)
        (numbers found.new stream.new place.new index.new long.new kind.new instrument.new time.new reason.new) }
{
    let mut state = State {
        held: *held,
        marks,
        times,
        places,
        heads,
        heap,
    };
    let answer = feed::turns::next(window, &mut state, spans);
    *held = state.held;
    hand_fed(
        answer, found, stream, place, index, long, kind, instrument, time, reason,
    )
}
