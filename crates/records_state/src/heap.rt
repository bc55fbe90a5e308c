// A binary heap of stream numbers in an array of 256 places, ordered by (time, stream number). The times stand in an array by
// stream. One sift-down serves opening, replacing the root and removing it.
ghost use Rattle.std.specs.Prelude.{◌≡◌, ◌+◌, ◌-◌, ◌*◌, ◌<◌, ◌≤◌, length, set};
ghost use Rattle.records_rules.specs.Sift.{Stands, Lesser, Sooner, Settled, Sifted, Heaped};
ghost use Rattle.records_state.specs.Lent.{HeapRoom, HeapAlone, RootRemoved};

use crate::state::{GONE, State};

// A stream of the heap: its time, its number, the place where it stands. Entries are ordered by these, in this order.
#[derive(Clone, Copy, PartialEq, Eq, PartialOrd, Ord)]
struct Entry {
    time: u64,
    stream: usize,
    place: usize,
}

impl Entry {
    // Whether this stream comes before another.
    fn comes_before(self, other: Entry) -> bool
        ensures { Sooner self.time self.stream other.time other.stream result }
    {
        self < other
    }
}

// What stands at a place of the heap.
fn entry_at(times: &[u64], heap: &[u8], place: usize) -> Entry
    requires { (place < length heap.now) × (256 ≤ length times.now) }
    ensures { Stands times.now heap.now place result.place result.stream result.time }
{
    let stream = heap[place] as usize;
    let time = times[stream];
    Entry {
        time,
        stream,
        place,
    }
}

// Of two places that lie side by side, the one whose stream comes first.
fn lesser(times: &[u64], heap: &[u8], place: usize) -> Entry
    requires { (place < 256) × (place + 1 < length heap.now) × (256 ≤ length times.now) }
    ensures { Lesser times.now heap.now place result.place result.stream result.time }
{
    let left = entry_at(times, heap, place);
    let right = entry_at(times, heap, place + 1);
    if right.comes_before(left) {
        right
    } else {
        left
    }
}

// The hole's last turn, where it has one child at most: a child that comes before the moving stream fills it. Answers where the
// hole is.
fn lone_child(times: &[u64], heap: &mut [u8], held: usize, hole: usize, moving: Entry) -> usize
    requires { (hole < held) × (held ≤ 2 * hole + 2) × (held ≤ length heap.old) × (held ≤ 256) × (256 ≤ length times.now) }
    ensures { Settled times.now held moving.time moving.stream hole heap.old result heap.new }
{
    let last = 2 * hole + 1;
    if held <= last {
        return hole;
    }
    let child = entry_at(times, heap, last);
    if moving.comes_before(child) {
        return hole;
    }
    heap[hole] = child.stream as u8;
    last
}

// What stands at `from` moves down to where it belongs: its place is a hole that the lesser child fills, until no child comes before
// it. In order or not, the heap holds the same streams afterwards.
pub fn sift_down(times: &[u64], heap: &mut [u8], held: usize, from: usize)
    requires { (held ≤ length heap.old) × (held ≤ 256) × (from ≤ held) × (256 ≤ length times.now) }
    ensures { Sifted times.now held from heap.old heap.new }
{
    if held <= from {
        return;
    }
    let moving = entry_at(times, heap, from);
    let mut hole = from;
    while 2 * hole + 2 < held {
        let child = lesser(times, heap, 2 * hole + 1);
        if moving.comes_before(child) {
            heap[hole] = moving.stream as u8;
            return;
        }
        heap[hole] = child.stream as u8;
        hole = child.place;
    }
    let end = lone_child(times, heap, held, hole, moving);
    heap[end] = moving.stream as u8;
}

// Puts the heap's first `held` places in order.
pub fn heapify(times: &[u64], heap: &mut [u8], held: usize)
    requires { (held ≤ length heap.old) × (held ≤ 256) × (256 ≤ length times.now) }
    ensures { Heaped times.now held heap.old heap.new 0 }
{
    for k in (0..held / 2).rev() {
        sift_down(times, heap, held, k);
    }
}

impl State<'_> {
    // What stands at `from` moves down to where it belongs, in this state's heap.
    #[inline(always)]
    pub fn sift_down(&mut self, from: usize)
        requires { HeapRoom self.old × (from ≤ self.old.held) }
        ensures sifted { Sifted self.old.times.now self.old.held from self.old.heap.now self.new.heap.now }
        ensures others { HeapAlone self.old self.new }
    {
        let held = self.held;
        let times = &mut *self.times;
        let heap = &mut *self.heap;
        sift_down(times, heap, held, from);
    }

    // Puts the heap's places in use in order.
    #[inline(always)]
    pub fn heapify(&mut self)
        requires { HeapRoom self.old }
        ensures heaped { Heaped self.old.times.now self.old.held self.old.heap.now self.new.heap.now 0 }
        ensures others { HeapAlone self.old self.new }
    {
        let held = self.held;
        let times = &mut *self.times;
        let heap = &mut *self.heap;
        heapify(times, heap, held);
    }

    // The root's stream is gone: the heap's last stream takes its place and moves down.
    #[inline(always)]
    pub fn remove_root(&mut self)
        requires { HeapRoom self.old × ((0 < self.old.held) × (256 ≤ length self.old.marks.now)) }
        ensures { RootRemoved self.old self.new }
    {
        self.marks[self.heap[0] as usize] = GONE;
        self.held -= 1;
        self.heap[0] = self.heap[self.held];
        self.sift_down(0);
    }
}
