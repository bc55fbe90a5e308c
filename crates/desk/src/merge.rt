// The record merge, and a stream's hint from its metadata (RULES, Merging records).
ghost use Rattle.std.specs.Prelude.{◌≡◌};
ghost use Rattle.door_answers.specs.Answers.{number_in, value_in};
ghost use Rattle.door_records.specs.Hints.{hint_answer};
ghost use Rattle.records_rules.specs.Bytes.{streams_of};
ghost use Rattle.records_rules.specs.State.{arrays};
ghost use Rattle.door_records.specs.Merge.{numbers, DeskNext, DeskOpen};

// The hint of a stream whose metadata has this header: 0 or 15; `hint` becomes the hint, and 15 leaves it as it was.
#[unsafe(no_mangle)]
pub extern "C" fn desk_hint_of(header: &[u64], hint: &mut u64) -> u32
    ensures value { result ≡ number_in (hint_answer header.now) }
    ensures hint_after { hint.new ≡ value_in hint.old 0 (hint_answer header.now) }
{
    door_records::hints::desk_hint_of(header, hint)
}

// Opens the streams of a buffer between its cuts, each at its hint: 0, 15 or 12; `streams` and `held` become the streams, and those
// that the heap holds.
#[unsafe(no_mangle)]
pub extern "C" fn desk_open(
    buffer: &[u8],
    cuts: &[u64],
    hints: &[u64],
    marks: &mut [u8],
    times: &mut [u64],
    places: &mut [u64],
    heads: &mut [u64],
    heap: &mut [u8],
    streams: &mut usize,
    held: &mut usize,
) -> u32
    ensures { DeskOpen buffer.now cuts.now hints.now
        (arrays marks.old times.old places.old heads.old heap.old)
        streams.old held.old result streams.new held.new
        (arrays marks.new times.new places.new heads.new heap.new) }
{
    door_records::merge::desk_open(
        buffer, cuts, hints, marks, times, places, heads, heap, streams, held,
    )
}

// The next record, the damage of a stream, or the end, on the buffer and the cuts of the opening: 0, 13 or 15. A record has `found`
// 1, the end 0 and its six numbers 0; 13 sets `stream`, `place` and `reason`; after 0 and 13 `held` and the arrays are the state that
// the next call goes on with, and 15 leaves all as it was.
#[unsafe(no_mangle)]
pub extern "C" fn desk_next(
    buffer: &[u8],
    cuts: &[u64],
    marks: &mut [u8],
    times: &mut [u64],
    places: &mut [u64],
    heads: &mut [u64],
    heap: &mut [u8],
    held: &mut usize,
    found: &mut u32,
    stream: &mut u64,
    place: &mut u64,
    long: &mut u16,
    kind: &mut u16,
    instrument: &mut u32,
    time: &mut u64,
    reason: &mut u64,
) -> u32
    ensures { DeskNext (streams_of buffer.now cuts.now) held.old
        (arrays marks.old times.old places.old heads.old heap.old)
        (numbers found.old stream.old place.old long.old kind.old instrument.old time.old reason.old)
        result held.new (arrays marks.new times.new places.new heads.new heap.new)
        (numbers found.new stream.new place.new long.new kind.new instrument.new time.new reason.new) }
{
    door_records::merge::desk_next(
        buffer, cuts, marks, times, places, heads, heap, held, found, stream, place, long, kind,
        instrument, time, reason,
    )
}
