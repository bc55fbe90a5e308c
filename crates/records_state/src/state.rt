// What is lent to the record merge: its state in five arrays of 256 places, and how many places of the heap are in use.
ghost use Rattle.std.specs.Prelude.{◌≡◌, ◌<◌, length, get_or};
ghost use Rattle.records_rules.specs.State.{arrays_fit};
ghost use Rattle.records_rules.specs.View.{packed};

use leaves::frame::Head;
use leaves_limits::STREAMS;

// The places of each array that is lent, and what an empty one holds.
pub const PLACES: usize = STREAMS;

pub const EMPTY: u64 = 0;

// A stream's mark: gone (or no stream), waiting to be read, standing at a record. Bytes and no enum: C lends them, and any byte may
// stand there (`desk_next` promises safety whatever the arrays hold).
pub const GONE: u8 = 0;

pub const WAITING: u8 = 1;

pub const STANDING: u8 = 2;

// Whether arrays of these lengths fit: each has 256 places, and no more of the heap is in use; where not, 15.
#[tactic(auto, unfolding(records_rules::specs::State::arrays_fit))]
pub fn arrays_fit(
    held: usize,
    marks: usize,
    times: usize,
    places: usize,
    heads: usize,
    heap: usize,
) -> bool
    ensures { result ≡ arrays_fit held marks times places heads heap }
{
    held <= PLACES
        && marks == PLACES
        && times == PLACES
        && places == PLACES
        && heads == PLACES
        && heap == PLACES
}

// A record's head in one number, since C lends a number a stream: its length in the two lowest bytes, its kind in the next two, its
// instrument above.
pub const TWO_BYTES: u64 = 65536;

pub const FOUR_BYTES: u64 = 4294967296;

// A record's length, kind and instrument in one number.
pub fn pack(head: Head) -> u64
    ensures { result ≡ packed head.length head.kind head.instrument }
{
    (head.length as u64) + TWO_BYTES * (head.kind as u64) + FOUR_BYTES * (head.instrument as u64)
}

// For each stream its mark, its time, its place and the head of the record it stands at; and the heap of stream numbers, of which
// `held` places are in use.
#[derive(Drop)]
pub struct State<'a> {
    pub held: usize,
    pub marks: &'a mut [u8],
    pub times: &'a mut [u64],
    pub places: &'a mut [u64],
    pub heads: &'a mut [u64],
    pub heap: &'a mut [u8],
}

impl State<'_> {
    ghost use Rattle.records_rules.specs.State.{fit_in};
    ghost use Rattle.records_state.specs.Lent.{arrays_of, streams_fit, NowStands};

    // Whether the four arrays of the streams have 256 places each.
    pub fn streams_fit(&self) -> bool
        ensures { result ≡ streams_fit self.now }
    {
        self.marks.len() == PLACES
            && self.times.len() == PLACES
            && self.places.len() == PLACES
            && self.heads.len() == PLACES
    }

    // Whether all five have; where not, an opening gets 15.
    pub fn has_places(&self) -> bool
        ensures { result ≡ fit_in 0 (arrays_of self.now) }
    {
        self.streams_fit() && self.heap.len() == PLACES
    }

    // Whether they have, and no more of the heap is in use; where not, a call gets 15.
    pub fn fits(&self) -> bool
        ensures { result ≡ fit_in self.now.held (arrays_of self.now) }
    {
        arrays_fit(
            self.held,
            self.marks.len(),
            self.times.len(),
            self.places.len(),
            self.heads.len(),
            self.heap.len(),
        )
    }

    // A stream stands at the record that was read.
    pub fn stand(&mut self, stream: usize, head: Head)
        requires { (stream < length self.old.marks.now) × (stream < length self.old.times.now) × (stream < length self.old.heads.now) }
        ensures { NowStands stream head.time (packed head.length head.kind head.instrument) self.old self.new }
    {
        self.marks[stream] = STANDING;
        self.times[stream] = head.time;
        self.heads[stream] = pack(head);
    }
}

// The entry p of a list, or 0 where the list is shorter.
pub fn entry_or_zero(xs: &[u64], p: usize) -> u64
    ensures { result ≡ get_or xs.now p 0 }
{
    xs.get(p).copied().unwrap_or(0)
}
