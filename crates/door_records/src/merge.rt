// The record merge at the C door (RULES, Merging records). Its state stands in five arrays of 256 places that the caller lends, and in
// the number of streams that the heap holds.
ghost use Rattle.records_rules.specs.Bytes.{streams_of};
ghost use Rattle.records_rules.specs.State.{arrays};
ghost use Rattle.records.specs.Merge.{turn_of};
ghost use Rattle.door_records.specs.Merge.{numbers, Handed, DeskNext, DeskOpen};

use door_answers::DONE;
use door_answers::damage::hand_damage;
use leaves::refusal::Refusal;
use records::merge::Record;
use records_state::state::State;

// Opens the streams of a buffer between its cuts, each at its hint: 0, 15 or 12; `streams` and `held` become the streams, and those
// that the heap holds.
#[unsafe(no_mangle)]
pub extern "C" fn desk_open(
    buffer: &[u8],
    cuts: &[u64],
    hints: &[u64],
    marks: &mut [u8],
    times: &mut [u64],
    places: &mut [u64],
    heads: &mut [u64],
    heap: &mut [u8],
    streams: &mut usize,
    held: &mut usize,
) -> u32
    ensures { DeskOpen buffer.now cuts.now hints.now
        (arrays marks.old times.old places.old heads.old heap.old)
        streams.old held.old result streams.new held.new
        (arrays marks.new times.new places.new heads.new heap.new) }
{
    let mut state = State {
        held: *held,
        marks,
        times,
        places,
        heads,
        heap,
    };
    match records::merge::open(buffer, cuts, hints, &mut state) {
        Ok(count) => {
            *streams = count;
            *held = state.held;
            DONE
        }
        Err(refusal) => refusal.number(),
    }
}

// Hands over what a call answered, and answers its number: a record has `found` 1, the end 0 and its six numbers 0; 13 sets `stream`,
// `place` and `reason`. C lends each number by itself.
pub fn hand_turn(
    answer: Result<Option<Record>, Refusal>,
    found: &mut u32,
    stream: &mut u64,
    place: &mut u64,
    long: &mut u16,
    kind: &mut u16,
    instrument: &mut u32,
    time: &mut u64,
    reason: &mut u64,
) -> u32
    ensures { Handed (turn_of answer) result
        (numbers found.old stream.old place.old long.old kind.old instrument.old time.old reason.old)
        (numbers found.new stream.new place.new long.new kind.new instrument.new time.new reason.new) }
{
    match answer {
        Ok(Some(record)) => {
            *found = 1;
            *stream = record.stream;
            *place = record.place;
            *long = record.length;
            *kind = record.kind;
            *instrument = record.instrument;
            *time = record.time;
            DONE
        }
        Ok(None) => {
            *found = 0;
            *stream = 0;
            *place = 0;
            *long = 0;
            *kind = 0;
            *instrument = 0;
            *time = 0;
            DONE
        }
        Err(refusal) => {
            hand_damage(refusal, stream, place, reason);
            refusal.number()
        }
    }
}

// The next record, the damage of a stream, or the end, on the buffer and the cuts of the opening: 0, 13 or 15. A record has `found`
// 1, the end 0 and its six numbers 0; 13 sets `stream`, `place` and `reason`; after 0 and 13 `held` and the arrays are the state that
// the next call goes on with, and 15 leaves all as it was.
#[unsafe(no_mangle)]
pub extern "C" fn desk_next(
    buffer: &[u8],
    cuts: &[u64],
    marks: &mut [u8],
    times: &mut [u64],
    places: &mut [u64],
    heads: &mut [u64],
    heap: &mut [u8],
    held: &mut usize,
    found: &mut u32,
    stream: &mut u64,
    place: &mut u64,
    long: &mut u16,
    kind: &mut u16,
    instrument: &mut u32,
    time: &mut u64,
    reason: &mut u64,
) -> u32
    ensures { DeskNext (streams_of buffer.now cuts.now) held.old
        (arrays marks.old times.old places.old heads.old heap.old)
        (numbers found.old stream.old place.old long.old kind.old instrument.old time.old reason.old)
        result held.new (arrays marks.new times.new places.new heads.new heap.new)
        (numbers found.new stream.new place.new long.new kind.new instrument.new time.new reason.new) }
{
    let mut state = State {
        held: *held,
        marks,
        times,
        places,
        heads,
        heap,
    };
    let answer = records::merge::next(buffer, cuts, &mut state);
    *held = state.held;
    hand_turn(
        answer, found, stream, place, long, kind, instrument, time, reason,
    )
}
