// Many calls of the record merge at once (RULES, Requests, No. 14), by the run of anything that is called again and again.
ghost use Rattle.std.specs.Prelude.{ℕ, ◌≤◌, ◌≡◌, List};
ghost use Rattle.std.proofs.Common.{rules};
ghost use Rattle.records_rules.specs.Machine.{Status};
ghost use Rattle.records_rules.specs.Bytes.{streams_of};
ghost use Rattle.records_rules.specs.State.{fit_in};
ghost use Rattle.records_state.specs.Lent.{arrays_of, HasRoom, SameMemory};
ghost use Rattle.run_list.specs.Run.{last_of};
ghost use Rattle.records_run.specs.Run.{RunGives, IsWhole};
ghost use Rattle.records_run.specs.Run as merge;
ghost use Rattle.records_run.specs.Calls.{Shows, right_room, room_left};

use leaves::refusal::Refusal;
use records::merge::turns;
pub use records_state::state::State;
use run_list::list::Row;
use run_list::run::Calls;
pub use run_list::run::{Last, Made};
use std::ops::ControlFlow;

// The streams of a buffer, between its cuts.
#[derive(Clone, Copy)]
struct Streams<'a> {
    buffer: &'a [u8],
    cuts: &'a [u64],
}

impl<'a, 'b> Calls<State<'b>> for Streams<'a> {
    ghost Machine = { List Status };

    ghost say = { λ c ss. merge.say (streams_of c.buffer.now c.cuts.now) ss };

    ghost go = { λ c ss. merge.go (streams_of c.buffer.now c.cuts.now) ss };

    ghost shows = { λ c s n ss. Shows s n ss };

    ghost may_stop = { IsWhole };

    ghost right = { λ c s. fit_in s.held (arrays_of s) };

    ghost room = { λ c s. HasRoom s.held s };

    ghost leaves = { λ c s d t. SameMemory s t × (t.held ≤ s.held) × (d ≡ c) };

    fn fits(&self, state: &State<'b>) -> bool {
        state.fits()
    }

    fn call(&mut self, state: &mut State<'b>) -> ControlFlow<Result<Last, Refusal>, Row> {
        match turns(self.buffer, self.cuts, state) {
            Ok(Some(record)) => ControlFlow::Continue(Row {
                stream: record.stream,
                place: record.place,
                time: record.time,
            }),
            Ok(None) => ControlFlow::Break(Ok(Last::End)),
            Err(refusal) => ControlFlow::Break(Err(refusal)),
        }
    }

    ghost right_room = { λ c s. right_room s };

    ghost room_left = { λ c d s t r l. room_left s t r l.0 l.1 };

    ghost say_left = { Prim.search rules };

    ghost go_left = { Prim.search rules };

    ghost leaves_refl = { Prim.search rules };

    ghost leaves_trans = { Prim.search rules };
}

// At most `allowance` calls of `next`, on the buffer and the cuts of the opening. 15 leaves everything as it was; 13 keeps what the
// calls before it did.
pub fn run(
    buffer: &[u8],
    cuts: &[u64],
    state: &mut State<'_>,
    allowance: usize,
    list: &mut [u64],
) -> Made
    ensures memory { SameMemory state.old state.new }
    ensures whole { IsWhole result.last }
    ensures says { RunGives (streams_of buffer.now cuts.now) allowance state.old.held (arrays_of state.old) list.old
        result.calls result.written state.new.held (last_of result.last) (arrays_of state.new) list.new }
{
    let mut streams = Streams { buffer, cuts };
    run_list::run::run(&mut streams, state, allowance, list)
}
