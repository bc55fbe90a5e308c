// The plain engine (RULES, Requests, No. 12) exported to C for the benchmark and the differential run alone: no library and no header
// has these two. They are the heap engine's exports without the heap.
#![tactic(auto)]

ghost use Rattle.door_records.specs.Merge.{numbers};
ghost use Rattle.bench_plain.specs.Exports.{PlainOpenHands, PlainNextHands};

use door_answers::DONE;
use door_records::merge::hand_turn;
use records_state::state::State;

// Opens the streams of a buffer between its cuts, each at its hint: 0, 15 or 12; `streams` becomes the streams.
#[unsafe(no_mangle)]
pub extern "C" fn plain_open(
    buffer: &[u8],
    cuts: &[u64],
    hints: &[u64],
    marks: &mut [u8],
    times: &mut [u64],
    places: &mut [u64],
    heads: &mut [u64],
    streams: &mut usize,
) -> u32
    ensures { PlainOpenHands buffer.now cuts.now hints.now
        marks.old times.old places.old heads.old streams.old result streams.new
        marks.new times.new places.new heads.new }
{
    match records_plain::plain::open(buffer, cuts, hints, marks, times, places, heads) {
        Ok(count) => {
            *streams = count;
            DONE
        }
        Err(refusal) => refusal.number(),
    }
}

// The next record, the damage of a stream, or the end: 0, 13 or 15. A record has `found` 1, the end 0 and its six numbers 0; 13 sets
// `stream`, `place` and `reason`; 15 leaves all as it was.
#[unsafe(no_mangle)]
pub extern "C" fn plain_next(
    buffer: &[u8],
    cuts: &[u64],
    streams: usize,
    marks: &mut [u8],
    times: &mut [u64],
    places: &mut [u64],
    heads: &mut [u64],
    found: &mut u32,
    stream: &mut u64,
    place: &mut u64,
    long: &mut u16,
    kind: &mut u16,
    instrument: &mut u32,
    time: &mut u64,
    reason: &mut u64,
) -> u32
    ensures { PlainNextHands buffer.now cuts.now streams
        marks.old times.old places.old heads.old
        (numbers found.old stream.old place.old long.old kind.old instrument.old time.old reason.old) result
        marks.new times.new places.new heads.new
        (numbers found.new stream.new place.new long.new kind.new instrument.new time.new reason.new) }
{
    let mut state = State {
        held: streams,
        marks,
        times,
        places,
        heads,
        heap: &mut [],
    };
    let answer = records_plain::plain::next(buffer, cuts, &mut state);
    hand_turn(
        answer, found, stream, place, long, kind, instrument, time, reason,
    )
}
