// A plain merger (RULES, Requests, No. 12): no heap, but a scan of all streams for the least (time, stream) before every read and every
// hand-out. It opens, refuses and answers as `records::merge` does; docs/TEACHING.md lays the two side by side. Of the lent state an
// engine's opening and a call leave the heap alone, and hold every stream.
ghost use Rattle.std.specs.Prelude.{◌≡◌, refl, ◌≤◌, ◌<◌, length, unwrap_or, IfSome};
ghost use Rattle.records_rules.specs.Bytes.{streams_of};
ghost use Rattle.records_rules.specs.Holds.{Chosen};
ghost use Rattle.records_rules.specs.State.{Small, Arrays};
ghost use Rattle.records_state.specs.Lent.{SameMemory};
ghost use Rattle.records.specs.Merge.{turn_of, opened_of};
ghost use Rattle.records_plain.specs.Plain.{PlainRoom, PlainSays, PlainNext, PlainOpens};

use leaves::refusal::Refusal;
use records::engine::Engine;
use records::merge::{Record, empty_bytes, handed, plus, read_stream};
use records_state::state::{EMPTY, GONE, PLACES, State, WAITING};

// The stream with the least (time, stream) of those that are not gone; none where all are. The least time stands in a variable beside
// its stream's number, so that a turn looks at no other stream's places.
fn least(state: &State<'_>) -> Option<usize>
    requires { (state.now.held ≤ length state.now.marks.now) × (state.now.held ≤ length state.now.times.now) }
    ensures chosen { Chosen state.now.held state.now.marks.now state.now.times.now (unwrap_or result state.now.held) }
    ensures below { IfSome result (λ p. p < state.now.held) }
{
    let marks = &*state.marks;
    let times = &*state.times;
    let mut best: Option<usize> = None;
    let mut time = 0;
    for p in 0..state.held {
        if marks[p] != GONE && (best.is_none() || times[p] < time) {
            best = Some(p);
            time = times[p];
        }
    }
    best
}

// A call, on arrays that have the room: the least stream is read where it waits, and handed out where it stands.
fn turns(buffer: &[u8], cuts: &[u64], state: &mut State<'_>) -> Result<Option<Record>, Refusal>
    requires { PlainRoom state.old.held state.old.marks.now state.old.times.now state.old.places.now state.old.heads.now }
    ensures memory { SameMemory state.old state.new }
    ensures others { (state.new.held ≡ state.old.held) × (state.new.heap ≡ state.old.heap) }
    ensures says { Small state.old.held state.old.places.now state.old.heads.now
        → PlainSays (streams_of buffer.now cuts.now) state.old.held
        state.old.marks.now state.old.times.now state.old.places.now state.old.heads.now
        (turn_of result) state.new.marks.now state.new.times.now state.new.places.now state.new.heads.now }
{
    while let Some(p) = least(state) {
        let place = state.places[p];
        if state.marks[p] != WAITING {
            let record = handed(p, place, state.heads[p], state.times[p]);
            state.marks[p] = WAITING;
            state.places[p] = plus(place, record.length as u64);
            state.heads[p] = EMPTY;
            return Ok(Some(record));
        }
        match read_stream(buffer, cuts, p, place) {
            Ok(Some(head)) => state.stand(p, head),
            Ok(None) => state.marks[p] = GONE,
            Err(reason) => {
                state.marks[p] = GONE;
                return Err(Refusal::Damaged {
                    stream: p as u64,
                    place,
                    reason,
                });
            }
        }
    }
    Ok(None)
}

// The next record, the damage of a stream, or the end, on the buffer and the cuts of the opening. 15 leaves everything as it was.
pub fn next(buffer: &[u8], cuts: &[u64], state: &mut State<'_>) -> Result<Option<Record>, Refusal>
    ensures memory { SameMemory state.old state.new }
    ensures others { (state.new.held ≡ state.old.held) × (state.new.heap ≡ state.old.heap) }
    ensures says { PlainNext buffer.now cuts.now state.old.held
        state.old.marks.now state.old.times.now state.old.places.now state.old.heads.now
        (turn_of result) state.new.marks.now state.new.times.now state.new.places.now state.new.heads.now }
{
    if PLACES < state.held || !state.streams_fit() {
        return Err(Refusal::BadMemory);
    }
    turns(buffer, cuts, state)
}

// Opens the streams as `records::merge::open` does, on four arrays of 256 places. The heap that it lays stays here: nothing that is lent
// holds one, so the arrays come one by one.
pub fn open(
    buffer: &[u8],
    cuts: &[u64],
    hints: &[u64],
    marks: &mut [u8],
    times: &mut [u64],
    places: &mut [u64],
    heads: &mut [u64],
) -> Result<usize, Refusal>
    ensures { PlainOpens buffer.now cuts.now hints.now
        marks.old times.old places.old heads.old
        (opened_of result) marks.new times.new places.new heads.new }
{
    let mut heap = empty_bytes();
    let mut state = State {
        held: 0,
        marks,
        times,
        places,
        heads,
        heap: &mut heap,
    };
    records::merge::open(buffer, cuts, hints, &mut state)
}

// The engine without a heap.
pub struct Plain;

impl Engine for Plain {
    ghost sound = { λ n held (a : Arrays). (held ≡ n) × Small n a.places a.heads };

    ghost opened = { λ n hints a o. (refl, o.sound.small) };

    fn open(
        buffer: &[u8],
        cuts: &[u64],
        hints: &[u64],
        state: &mut State<'_>,
    ) -> Result<usize, Refusal> {
        let streams = open(
            buffer,
            cuts,
            hints,
            state.marks,
            state.times,
            state.places,
            state.heads,
        )?;
        state.held = streams;
        Ok(streams)
    }

    fn next(buffer: &[u8], cuts: &[u64], state: &mut State<'_>) -> Result<Option<Record>, Refusal> {
        next(buffer, cuts, state)
    }
}
