// The merge of a buffer's streams told in lines (RULES, Merging records): it is opened with no hints and called to its end, by either
// engine, and each answer's line is laid behind the one before.
ghost use Rattle.std.specs.Prelude.{◌-◌, length, replicate};
ghost use Rattle.records_rules.specs.Machine as machine;
ghost use Rattle.records_rules.specs.Bytes.{streams_of};
ghost use Rattle.records_rules.specs.State.{statuses_at};
ghost use Rattle.records_state.specs.Lent.{arrays_of};
ghost use Rattle.lines.specs.Lines.{Lays};
ghost use Rattle.replay_text.specs.Replay.{lines_left};
ghost use Rattle.replay_text.specs.Telling.{Ready, Cut};

use leaves::refusal::Refusal;
use lines::lines::{damage_line, record_line, word};
use records::engine::Engine;
use records::merge::{empty_bytes, empty_numbers};
use records_state::state::State;

// Calls the merge to its end, and writes a line for each of its answers.
fn tell_all<E: Engine>(buffer: &[u8], cuts: &[u64], state: &mut State<'_>, text: &mut [u8]) -> usize
    requires { Ready E.sound (streams_of buffer.now cuts.now) (length cuts.now - 1) state.old.held (arrays_of state.old) text.old }
    ensures { Lays text.old 0 (lines_left (streams_of buffer.now cuts.now) (statuses_at (length cuts.now - 1) (arrays_of state.old))) result text.new }
{
    let mut at = 0;
    loop {
        match E::next(buffer, cuts, state) {
            Ok(Some(record)) => at = record_line(
                text,
                at,
                record.stream,
                record.time,
                record.instrument,
            ),
            Ok(None) => return word(text, at, b"end\n"),
            Err(refusal) => {
                // No other refusal comes of streams that were opened.
                let Refusal::Damaged { stream, place, .. } = refusal else {
                    return at;
                };
                at = damage_line(text, at, stream, place);
            }
        }
    }
}

// Writes the replay of the streams of a buffer between its cuts.
pub fn tell_streams<E: Engine>(buffer: &[u8], cuts: &[u64], text: &mut [u8]) -> usize
    requires { Cut buffer.now cuts.now text.old }
    ensures { Lays text.old 0 (lines_left (streams_of buffer.now cuts.now) (machine.start (replicate (length cuts.now - 1) 0))) result text.new }
{
    let mut marks = empty_bytes();
    let mut times = empty_numbers();
    let mut places = empty_numbers();
    let mut heads = empty_numbers();
    let mut heap = empty_bytes();
    let mut state = State {
        held: 0,
        marks: &mut marks,
        times: &mut times,
        places: &mut places,
        heads: &mut heads,
        heap: &mut heap,
    };
    match E::open(buffer, cuts, &[], &mut state) {
        Ok(_) => tell_all::<E>(buffer, cuts, &mut state, text),
        // Right cuts are not refused.
        Err(_) => 0,
    }
}
