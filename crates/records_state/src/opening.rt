// The parts of an opening: whether the streams are right, and each of them laid at its hint (RULES, Merging records).
ghost use Rattle.std.specs.Prelude.{◌≡◌};
ghost use Rattle.records_rules.specs.State.{right_streams};
ghost use Rattle.records_rules.specs.Opening.{Laid};
ghost use Rattle.records_state.specs.Lent.{HasRoom, SameMemory};

use crate::state::{EMPTY, GONE, PLACES, State, WAITING, entry_or_zero};
use leaves_limits::STREAMS;

// Cuts are one more than the streams.
const MOST_CUTS: usize = STREAMS + 1;

// Whether the streams are right: at least one and at most 256, the cuts from 0 to the buffer's length without a fall, and no hint
// or one a stream; where not, 12.
pub fn streams_right(size: u64, cuts: &[u64], hints: usize) -> bool
    ensures { result ≡ right_streams size cuts.now hints }
{
    let [first, .., last] = cuts else {
        return false;
    };
    if MOST_CUTS < cuts.len() || *first != 0 || *last != size {
        return false;
    }
    (hints == 0 || hints == cuts.len() - 1) && cuts.is_sorted()
}

impl State<'_> {
    // Each of so many streams waits at its hint, from its first byte on, and the heap holds them; the other places are empty.
    pub fn lay_streams(&mut self, streams: usize, hints: &[u64])
        requires { HasRoom streams self.old }
        ensures laid { Laid streams 256 hints.now self.new.marks.now self.new.times.now self.new.places.now self.new.heads.now self.new.heap.now }
        ensures held { self.new.held ≡ streams }
        ensures memory { SameMemory self.old self.new }
    {
        for i in 0..PLACES {
            self.marks[i] = if i < streams { WAITING } else { GONE };
            self.times[i] = entry_or_zero(hints, i);
            self.places[i] = EMPTY;
            self.heads[i] = EMPTY;
            self.heap[i] = if i < streams { i as u8 } else { 0 };
        }
        self.held = streams;
    }
}
