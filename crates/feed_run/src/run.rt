// Many calls at once where streams arrive in portions (RULES, Requests, No. 14), by the run of anything that is called again and again.
ghost use Rattle.std.specs.Prelude.{◌≡◌, ◌≤◌, ⊤};
ghost use Rattle.std.proofs.Common.{rules};
ghost use Rattle.feed_rules.specs.Windows.{Feed, next_leaves};
ghost use Rattle.feed_rules.specs.Spans.{feed_fit_in};
ghost use Rattle.feed.specs.Lent.{feed_arrays_of, HasFeedRoom};
ghost use Rattle.records_state.specs.Lent.{Kept, SameMemory};
ghost use Rattle.run_list.specs.Run.{last_of};
ghost use Rattle.feed_run.specs.Run.{say⁺, FeedRunGives};
ghost use Rattle.feed_run.specs.Calls.{Shows⁺, right_room, room_left};

pub use feed::lent::State;
use feed::lent::fits;
use feed::turns::{Fed, turns};
use leaves::refusal::Refusal;
use run_list::list::Row;
use run_list::run::Calls;
pub use run_list::run::{Last, Made};
use std::ops::ControlFlow;

// The window of the streams, and a span a stream.
#[derive(Drop)]
struct Window<'a, 'b> {
    bytes: &'a [u8],
    spans: &'b mut [u64],
}

impl<'a, 'b, 'c> Calls<State<'c>> for Window<'a, 'b> {
    ghost Machine = { Feed };

    ghost say = { λ c. say⁺ };

    ghost go = { λ c. next_leaves };

    ghost shows = { λ c s. Shows⁺ c.bytes.now s c.spans.now };

    ghost may_stop = { λ r. ⊤ };

    ghost right = { λ c s. feed_fit_in s.held c.bytes.now (feed_arrays_of s c.spans.now) };

    ghost room = { λ c s. HasFeedRoom s c.spans.now };

    ghost leaves = { λ c s d t. SameMemory s t × (t.held ≤ s.held) × (d.bytes ≡ c.bytes) × Kept c.spans d.spans };

    fn fits(&self, state: &State<'c>) -> bool {
        fits(self.bytes, state, self.spans)
    }

    fn call(&mut self, state: &mut State<'c>) -> ControlFlow<Result<Last, Refusal>, Row> {
        match turns(self.bytes, state, self.spans) {
            Ok(Fed::Record { record, at: _ }) => ControlFlow::Continue(Row {
                stream: record.stream,
                place: record.place,
                time: record.time,
            }),
            Ok(Fed::End) => ControlFlow::Break(Ok(Last::End)),
            Ok(Fed::NeedMore(stream)) => ControlFlow::Break(Ok(Last::NeedMore(stream))),
            Err(refusal) => ControlFlow::Break(Err(refusal)),
        }
    }

    ghost right_room = { λ c s. right_room c.bytes.now s c.spans.now };

    ghost room_left = { λ c d s t r l. room_left s t c.spans d.spans r l.0 l.1 l.3 };

    ghost say_left = { Prim.search rules };

    ghost go_left = { Prim.search rules };

    ghost leaves_refl = { Prim.search rules };

    ghost leaves_trans = { Prim.search rules };
}

// At most `allowance` calls of `next`. 15 leaves everything as it was; 13 keeps what the calls before it did.
pub fn run(
    window: &[u8],
    state: &mut State<'_>,
    spans: &mut [u64],
    allowance: usize,
    list: &mut [u64],
) -> Made
    ensures memory { SameMemory state.old state.new }
    ensures says { FeedRunGives window.now allowance state.old.held (feed_arrays_of state.old spans.old) list.old
        result.calls result.written state.new.held (last_of result.last) (feed_arrays_of state.new spans.new) list.new }
{
    let mut streams = Window {
        bytes: window,
        spans,
    };
    run_list::run::run(&mut streams, state, allowance, list)
}
