// A run of anything that is called again and again (RULES, Requests, No. 14): it makes at most the allowed calls and writes stream, place
// and time of each record to a lent list, three words a record, from its front. It stops after a call that answers no record, before a
// call where the list is full, and when the allowance is used. What is lent is judged once for the run.
ghost use Rattle.std.specs.Prelude.{◌≡◌, ℕ, Bool, true, false, ◌*◌, ◌≤◌, length, Result};
ghost use Rattle.run_rules.specs.Rows.{Note, run_of, run_fits, most, Gives, RunRefused};
ghost use Rattle.std.specs.ControlFlow.{ForBreak};
ghost use Rattle.run_list.specs.Run.{note_of, last_of, Stops, RunStops};

use crate::list::{Row, limit_of, put_row, run_fits};
use leaves::refusal::Refusal;
use std::ops::ControlFlow;

// How a run stopped: a further call may be made; the end; or more of a stream is needed first. Damage is the refusal 13.
#[derive(Clone, Copy, Debug, PartialEq, Eq)]
pub enum Last {
    Going,
    End,
    NeedMore(u64),
}

// A run: the calls that were made, the records that were written, and how it stopped.
#[derive(Clone, Copy, Debug, PartialEq, Eq)]
pub struct Made {
    pub calls: usize,
    pub written: usize,
    pub last: Result<Last, Refusal>,
}

// What a run calls, over the state that is lent to it, T. A call goes on with a record's row, or breaks off with how the run stops.
pub trait Calls<T> {
    ghost use Rattle.leaves.specs.declared.refusal.Refusal.{Refusal};
    ghost use Rattle.run_list.specs.declared.run.Last.{Last};

    // The states of the machine that is called; what a call says in a state, and the state that it leaves.
    ghost Machine: { Type 0 };

    ghost say: { Self → Machine → Note };

    ghost go: { Self → Machine → Machine };

    // What is lent is a sound state of so many streams, and is this state of the machine.
    ghost shows: { Self → T → ℕ → Machine → Type 0 };

    // How a call may stop a run, whatever is lent.
    ghost may_stop: { Result Last Refusal → Type 0 };

    // What is lent is right; it has the room for a call; and what a call leaves stands in the same memory, of the same machine.
    ghost right: { Self → T → Bool };

    ghost room: { Self → T → Type 0 };

    ghost leaves: { Self → T → Self → T → Type 0 };

    // Whether what is lent is right; where not, 15.
    fn fits(&self, state: &T) -> bool
        ensures { result ≡ right self.now state.now };

    fn call(&mut self, state: &mut T) -> ControlFlow<Result<Last, Refusal>, Row>
        requires { room self.old state.old }
        ensures memory { leaves self.old state.old self.new state.new }
        ensures stops { ForBreak result may_stop }
        ensures says { (n : ℕ) (m : Machine) → shows self.old state.old n m
            → (note_of result ≡ say self.old m) × shows self.new state.new n (go self.old m) };

    ghost right_room: { (c : Self) (s : T) → right c s ≡ true → room c s };

    ghost room_left: { (c d : Self) (s t : T) → room c s → leaves c s d t → room d t };

    ghost say_left: { (c d : Self) (s t : T) → leaves c s d t → (m : Machine) → say d m ≡ say c m };

    ghost go_left: { (c d : Self) (s t : T) → leaves c s d t → (m : Machine) → go d m ≡ go c m };

    ghost leaves_refl: { (c : Self) (s : T) → leaves c s c s };

    ghost leaves_trans: { (c d e : Self) (s t u : T) → leaves c s d t → leaves d t e u → leaves c s e u };
}

// A run of at most so many calls, on memory that is right and a list that has the room.
fn steps<T, C: Calls<T>>(calls: &mut C, state: &mut T, list: &mut [u64], limit: usize) -> Made
    requires { C.room calls.old state.old × (3 * limit ≤ length list.old) }
    ensures memory { C.leaves calls.old state.old calls.new state.new }
    ensures stops { Stops C.may_stop result.last }
    ensures says { (n : ℕ) (m : C.Machine) → C.shows calls.old state.old n m
        → Gives (run_of (C.say calls.old) (C.go calls.old) limit m) list.old result.calls result.written (last_of result.last) list.new
        × C.shows calls.new state.new n (run_of (C.say calls.old) (C.go calls.old) limit m).left }
{
    for at in 0..limit {
        match calls.call(state) {
            ControlFlow::Continue(row) => put_row(list, at, row),
            ControlFlow::Break(last) => {
                return Made {
                    calls: at + 1,
                    written: at,
                    last,
                };
            }
        }
    }
    Made {
        calls: limit,
        written: limit,
        last: Ok(Last::Going),
    }
}

// At most `allowance` calls. 15 leaves everything as it was; 13 keeps what the calls before it did.
pub fn run<T, C: Calls<T>>(calls: &mut C, state: &mut T, allowance: usize, list: &mut [u64]) -> Made
    ensures memory { C.leaves calls.old state.old calls.new state.new }
    ensures stops { RunStops C.may_stop result.last }
    ensures refused { run_fits (C.right calls.old state.old) allowance (length list.old) ≡ false
        → RunRefused state.old list.old 0 result.calls result.written 0 (last_of result.last) state.new list.new × (calls.new ≡ calls.old) }
    ensures says { run_fits (C.right calls.old state.old) allowance (length list.old) ≡ true
        → (n : ℕ) (m : C.Machine) → C.shows calls.old state.old n m
        → Gives (run_of (C.say calls.old) (C.go calls.old) (most allowance (length list.old)) m) list.old
        result.calls result.written (last_of result.last) list.new
        × C.shows calls.new state.new n (run_of (C.say calls.old) (C.go calls.old) (most allowance (length list.old)) m).left }
{
    if !run_fits(calls.fits(state), allowance, list.len()) {
        return Made {
            calls: 0,
            written: 0,
            last: Err(Refusal::BadMemory),
        };
    }
    let limit = limit_of(allowance, list.len());
    steps(calls, state, list, limit)
}
