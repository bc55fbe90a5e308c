// The plain engine's two exports for C, libbench_plain_c.a, for the benchmark and the differential run alone: each is one call of
// bench_plain's function.
#![tactic(auto)]

ghost use Rattle.door_records.specs.Merge.{numbers};
ghost use Rattle.bench_plain.specs.Exports.{PlainOpenHands, PlainNextHands};

// Opens the streams of a buffer between its cuts, each at its hint: 0, 15 or 12; `streams` becomes the streams.
#[unsafe(no_mangle)]
pub extern "C" fn plain_open(
    buffer: &[u8],
    cuts: &[u64],
    hints: &[u64],
    marks: &mut [u8],
    times: &mut [u64],
    places: &mut [u64],
    heads: &mut [u64],
    streams: &mut usize,
) -> u32
    ensures { PlainOpenHands buffer.now cuts.now hints.now
        marks.old times.old places.old heads.old streams.old result streams.new
        marks.new times.new places.new heads.new }
{
    bench_plain::plain_open(buffer, cuts, hints, marks, times, places, heads, streams)
}

// The next record, the damage of a stream, or the end: 0, 13 or 15. A record has `found` 1, the end 0 and its six numbers 0; 13 sets
// `stream`, `place` and `reason`; 15 leaves all as it was.
#[unsafe(no_mangle)]
pub extern "C" fn plain_next(
    buffer: &[u8],
    cuts: &[u64],
    streams: usize,
    marks: &mut [u8],
    times: &mut [u64],
    places: &mut [u64],
    heads: &mut [u64],
    found: &mut u32,
    stream: &mut u64,
    place: &mut u64,
    long: &mut u16,
    kind: &mut u16,
    instrument: &mut u32,
    time: &mut u64,
    reason: &mut u64,
) -> u32
    ensures { PlainNextHands buffer.now cuts.now streams
        marks.old times.old places.old heads.old
        (numbers found.old stream.old place.old long.old kind.old instrument.old time.old reason.old) result
        marks.new times.new places.new heads.new
        (numbers found.new stream.new place.new long.new kind.new instrument.new time.new reason.new) }
{
    bench_plain::plain_next(
        buffer, cuts, streams, marks, times, places, heads, found, stream, place, long, kind,
        instrument, time, reason,
    )
}
