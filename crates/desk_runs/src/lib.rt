// Many calls of the record merge at once, for C: the part of libdesk.a that has `desk_run` (RULES, Requests, No. 14). A library of its
// own, as door_run is a crate of its own.
#![tactic(auto)]

ghost use Rattle.records_rules.specs.Bytes.{streams_of};
ghost use Rattle.records_rules.specs.State.{arrays};
ghost use Rattle.door_run.specs.Handing.{numbers};
ghost use Rattle.door_run.specs.Run.{DeskRun};

// At most `allowance` calls of `desk_next`: 0, 13 or 15. Each record's stream, place and time go to the list, three words a record;
// `last` is 1 where a further call may be made, and 0 at the end; 13 sets `stream`, `place` and `reason`, and 15 leaves all as it was.
#[unsafe(no_mangle)]
pub extern "C" fn desk_run(
    buffer: &[u8],
    cuts: &[u64],
    marks: &mut [u8],
    times: &mut [u64],
    places: &mut [u64],
    heads: &mut [u64],
    heap: &mut [u8],
    held: &mut usize,
    allowance: usize,
    list: &mut [u64],
    calls: &mut usize,
    written: &mut usize,
    last: &mut u32,
    stream: &mut u64,
    place: &mut u64,
    reason: &mut u64,
) -> u32
    ensures { DeskRun (streams_of buffer.now cuts.now) allowance held.old
        (arrays marks.old times.old places.old heads.old heap.old) list.old
        (numbers calls.old written.old last.old stream.old place.old reason.old) result
        held.new (arrays marks.new times.new places.new heads.new heap.new) list.new
        (numbers calls.new written.new last.new stream.new place.new reason.new) }
{
    door_run::run::desk_run(
        buffer, cuts, marks, times, places, heads, heap, held, allowance, list, calls, written,
        last, stream, place, reason,
    )
}
