// An engine of the merge (RULES, Requests, No. 12): what opens streams, and gives the next answer of streams that were opened.
ghost use Rattle.std.specs.Prelude.{◌≡◌, ℕ, List};
ghost use Rattle.std.specs.Result.{OnErr, IfOk};
ghost use Rattle.records_rules.specs.Bytes.{streams_of};
ghost use Rattle.records_rules.specs.State.{Arrays, SoundIn, OpenedIn};
ghost use Rattle.records_state.specs.Lent.{arrays_of, SameMemory};
ghost use Rattle.records.specs.Merge.{turn_of, opening_of};
ghost use Rattle.records.specs.Engine.{EngineOpens, EngineTurns};

use crate::merge::Record;
use leaves::refusal::Refusal;
use records_state::state::State;

pub trait Engine {
    // A sound state of so many streams, of which so many are held.
    ghost sound: { ℕ → ℕ → Arrays → Type 0 };

    // Opens the streams of a buffer between its cuts, each at its hint, and answers how many there are, all of which are held. A
    // refusal leaves everything as it was. An engine that has no opening of its own opens as the heap's does.
    fn open(
        buffer: &[u8],
        cuts: &[u64],
        hints: &[u64],
        state: &mut State<'_>,
    ) -> Result<usize, Refusal>
        ensures memory { SameMemory state.old state.new }
        ensures refused { OnErr result (state.new ≡ state.old) }
        ensures held { IfOk result (λ streams. state.new.held ≡ streams) }
        ensures says { EngineOpens sound buffer.now cuts.now hints.now (arrays_of state.old)
            (opening_of state.new.held result) (arrays_of state.new) }
    {
        crate::merge::open(buffer, cuts, hints, state)
    }

    // The next record, the damage of a stream, or the end, on the buffer and the cuts of the opening.
    fn next(buffer: &[u8], cuts: &[u64], state: &mut State<'_>) -> Result<Option<Record>, Refusal>
        ensures memory { SameMemory state.old state.new }
        ensures says { EngineTurns sound (streams_of buffer.now cuts.now) state.old.held (arrays_of state.old) (turn_of result) state.new.held (arrays_of state.new) };

    // The heap's opening leaves a sound state.
    ghost opened: { (n : ℕ) (hints : List ℕ) (a : Arrays) → OpenedIn n hints a → sound n n a };
}

// The engine over the heap.
pub struct Heap;

impl Engine for Heap {
    ghost sound = { SoundIn };

    ghost opened = { λ n hints a o. o.sound };

    fn next(buffer: &[u8], cuts: &[u64], state: &mut State<'_>) -> Result<Option<Record>, Refusal> {
        crate::merge::next(buffer, cuts, state)
    }
}
