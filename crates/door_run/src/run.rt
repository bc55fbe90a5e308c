// Many calls of the record merge at once, at the C door (RULES, Requests, No. 14). Its state is that of the merge.
ghost use Rattle.std.specs.Prelude.{◌≡◌};
ghost use Rattle.leaves.specs.Refusal.{refused};
ghost use Rattle.records_rules.specs.Bytes.{streams_of};
ghost use Rattle.records_rules.specs.State.{arrays};
ghost use Rattle.run_list.specs.Run.{last_of};
ghost use Rattle.door_run.specs.Handing.{moved_in, numbers, RunHanded};
ghost use Rattle.door_run.specs.Run.{DeskRun};

use door_answers::DONE;
use door_answers::damage::hand_damage;
use leaves::refusal::Refusal;
use records_run::run::{Last, Made, State};

// Bad memory.
const BAD_MEMORY: u32 = 15;

// A number that a run moves on, unless it is refused for its memory.
pub fn moved(refusal: Refusal, after: usize, held: usize) -> usize
    ensures { result ≡ moved_in held after (refused refusal) }
{
    if refusal.number() == BAD_MEMORY {
        return held;
    }
    after
}

// Hands over what a run made, and answers its number: `last` is 1 where a further call may be made, 0 at the end, and 2 where more of a
// stream is needed, `stream` being that stream; 13 sets `stream`, `place` and `reason`, and 15 leaves all as it was.
pub fn hand_made(
    made: Made,
    calls: &mut usize,
    written: &mut usize,
    last: &mut u32,
    stream: &mut u64,
    place: &mut u64,
    reason: &mut u64,
) -> u32
    ensures { RunHanded (last_of made.last) made.calls made.written result
        (numbers calls.old written.old last.old stream.old place.old reason.old)
        (numbers calls.new written.new last.new stream.new place.new reason.new) }
{
    match made.last {
        Ok(Last::Going) => {
            *calls = made.calls;
            *written = made.written;
            *last = 1;
            *stream = 0;
            *place = 0;
            DONE
        }
        Ok(Last::End) => {
            *calls = made.calls;
            *written = made.written;
            *last = 0;
            *stream = 0;
            *place = 0;
            DONE
        }
        Ok(Last::NeedMore(s)) => {
            *calls = made.calls;
            *written = made.written;
            *last = 2;
            *stream = s;
            *place = 0;
            DONE
        }
        Err(refusal) => {
            *calls = moved(refusal, made.calls, *calls);
            *written = moved(refusal, made.written, *written);
            hand_damage(refusal, stream, place, reason);
            refusal.number()
        }
    }
}

// At most `allowance` calls of `desk_next`: 0, 13 or 15. Each record's stream, place and time go to the list, three words a record;
// `last` is 1 where a further call may be made, and 0 at the end; 13 sets `stream`, `place` and `reason`, and 15 leaves all as it was.
#[unsafe(no_mangle)]
pub extern "C" fn desk_run(
    buffer: &[u8],
    cuts: &[u64],
    marks: &mut [u8],
    times: &mut [u64],
    places: &mut [u64],
    heads: &mut [u64],
    heap: &mut [u8],
    held: &mut usize,
    allowance: usize,
    list: &mut [u64],
    calls: &mut usize,
    written: &mut usize,
    last: &mut u32,
    stream: &mut u64,
    place: &mut u64,
    reason: &mut u64,
) -> u32
    ensures { DeskRun (streams_of buffer.now cuts.now) allowance held.old
        (arrays marks.old times.old places.old heads.old heap.old) list.old
        (numbers calls.old written.old last.old stream.old place.old reason.old) result
        held.new (arrays marks.new times.new places.new heads.new heap.new) list.new
        (numbers calls.new written.new last.new stream.new place.new reason.new) }
{
    let mut state = State {
        held: *held,
        marks,
        times,
        places,
        heads,
        heap,
    };
    let made = records_run::run::run(buffer, cuts, &mut state, allowance, list);
    *held = state.held;
    hand_made(made, calls, written, last, stream, place, reason)
}
