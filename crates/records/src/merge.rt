// The record merge over a heap (RULES, Merging records). All of its state is lent (`State`): for each stream its mark, its time, its
// place and the head (length, kind, instrument) of the record it stands at; and the heap of stream numbers. A call hands out the
// record of the least (time, stream).
ghost use Rattle.std.specs.Prelude.{◌≡◌, ◌+◌, ◌<◌, ◌^◌, length, get_or, replicate, Some, Ok};
ghost use Rattle.std.specs.Result.{OnErr, IfOk};
ghost use Rattle.std.proofs.Math.Seq.{slice};
ghost use Rattle.leaves.specs.Frame.{head_of};
ghost use Rattle.records_rules.specs.Machine.{says, record_at_lem};
ghost use Rattle.records_rules.specs.Bytes.{streams_of};
ghost use Rattle.records_rules.specs.View.{rec_in};
ghost use Rattle.records_rules.specs.State.{answer_of, TurnSays, NextSays, OpenSays};
ghost use Rattle.records_state.specs.Lent.{arrays_of, HasRoom, SameMemory};
ghost use Rattle.records.specs.Merge.{turn_of, opening_of};

use leaves::frame::{Head, read_within};
use leaves::refusal::{Reason, Refusal};
use records_state::opening::streams_right;
use records_state::state::{EMPTY, FOUR_BYTES, GONE, State, TWO_BYTES, WAITING};

// A record that a call hands out.
#[derive(Clone, Copy, Debug, PartialEq, Eq)]
pub struct Record {
    pub stream: u64,
    pub place: u64,
    pub length: u16,
    pub kind: u16,
    pub instrument: u32,
    pub time: u64,
}

// Room for marks, and for the heap: empty places. A function for each of the two arrays: one for both would be told what is empty in it,
// and say no more than `[GONE; 256]`.
pub fn empty_bytes() -> [u8; 256]
    ensures { (result ≡ replicate 256 0) × (256 ≡ length result) }
{
    [GONE; 256]
}

// Room for times, places and heads: empty places.
pub fn empty_numbers() -> [u64; 256]
    ensures { (result ≡ replicate 256 0) × (256 ≡ length result) }
{
    [EMPTY; 256]
}

// The sum, where it fits.
pub fn plus(a: u64, b: u64) -> u64
    ensures { a + b < 2 ^ 64 → result ≡ a + b }
{
    a.checked_add(b).unwrap_or(0)
}

// What stands at a place of a stream, which is the buffer's part from its cut to the next one; nothing where there is no next one.
pub fn read_stream(
    buffer: &[u8],
    cuts: &[u64],
    stream: usize,
    place: u64,
) -> Result<Option<Head>, Reason>
    requires { stream < 256 }
    ensures { head_of result ≡ (streams_of buffer.now cuts.now stream).read place }
{
    if cuts.len() <= stream + 1 {
        return Ok(None);
    }
    read_within(buffer, cuts[stream], cuts[stream + 1], place)
}

// The record that a stream stands at.
pub fn handed(stream: usize, place: u64, head: u64, time: u64) -> Record
    ensures { turn_of (Ok (Some result)) ≡ answer_of (says stream (record_at_lem place (rec_in head time))) }
{
    Record {
        stream: stream as u64,
        place,
        length: (head % TWO_BYTES) as u16,
        kind: (head / TWO_BYTES % TWO_BYTES) as u16,
        instrument: (head / FOUR_BYTES) as u32,
        time,
    }
}

// A call, on arrays that have the room: the heap's root is read where it waits, and handed out where it stands. It is safe and
// ends whatever the arrays hold.
pub fn turns(buffer: &[u8], cuts: &[u64], state: &mut State<'_>) -> Result<Option<Record>, Refusal>
    requires { HasRoom state.old.held state.old }
    ensures memory { SameMemory state.old state.new }
    ensures says { TurnSays (streams_of buffer.now cuts.now) state.old.held (arrays_of state.old) (turn_of result) state.new.held (arrays_of state.new) }
{
    while 0 < state.held {
        let p = state.heap[0] as usize;
        let place = state.places[p];
        if state.marks[p] != WAITING {
            let record = handed(p, place, state.heads[p], state.times[p]);
            state.marks[p] = WAITING;
            state.places[p] = plus(place, record.length as u64);
            state.heads[p] = EMPTY;
            return Ok(Some(record));
        }
        match read_stream(buffer, cuts, p, place) {
            Ok(Some(head)) => {
                state.stand(p, head);
                state.sift_down(0);
            }
            Ok(None) => state.remove_root(),
            Err(reason) => {
                state.remove_root();
                return Err(Refusal::Damaged {
                    stream: p as u64,
                    place,
                    reason,
                });
            }
        }
    }
    Ok(None)
}

// The next record, the damage of a stream, or the end, on the buffer and the cuts of the opening. 15 leaves everything as it was.
pub fn next(buffer: &[u8], cuts: &[u64], state: &mut State<'_>) -> Result<Option<Record>, Refusal>
    ensures memory { SameMemory state.old state.new }
    ensures says { NextSays (streams_of buffer.now cuts.now) state.old.held (arrays_of state.old) (turn_of result) state.new.held (arrays_of state.new) }
{
    if !state.fits() {
        return Err(Refusal::BadMemory);
    }
    turns(buffer, cuts, state)
}

// Opens the streams of a buffer between its cuts, each at its hint, and answers how many there are; the heap holds all of them. It
// reads none of them. A refusal leaves everything as it was.
pub fn open(
    buffer: &[u8],
    cuts: &[u64],
    hints: &[u64],
    state: &mut State<'_>,
) -> Result<usize, Refusal>
    ensures memory { SameMemory state.old state.new }
    ensures refused { OnErr result (state.new ≡ state.old) }
    ensures held { IfOk result (λ streams. state.new.held ≡ streams) }
    ensures says { OpenSays buffer.now cuts.now hints.now (arrays_of state.old) (opening_of state.new.held result) (arrays_of state.new) }
{
    if !state.has_places() {
        return Err(Refusal::BadMemory);
    }
    if !streams_right(buffer.len() as u64, cuts, hints.len()) {
        return Err(Refusal::BadStreams);
    }
    let streams = cuts.len() - 1;
    state.lay_streams(streams, hints);
    state.heapify();
    Ok(streams)
}
