// Mappings and intervals in lent words: a mapping is two (its name, how many intervals), an interval three (start, end,
// symbol). Helpers: each asks for the words that it reads or writes.
ghost use Rattle.std.specs.Prelude.{◌≡◌, ◌+◌, ◌-◌, ◌*◌, ◌<◌, ◌≤◌, length};
ghost use Rattle.metadata_rules.specs.Words.{interval_at, name_at, count_at};
ghost use Rattle.metadata_words.specs.Words.{put_at, put_mapping, lay_intervals, rest};

use metadata_rules::Interval;

// The words of a mapping and of an interval.
pub const MAPPING_WORDS: usize = 2;

pub const INTERVAL_WORDS: usize = 3;

// The first `count` mappings of lent words, and their intervals, those of the mappings one after the other.
#[derive(Clone, Copy, Debug)]
pub struct Mappings<'a> {
    pub words: &'a [u32],
    pub count: usize,
    pub intervals: &'a [u32],
}

// The i-th interval.
#[tactic(auto, unfolding(metadata_rules::specs::Words::interval_at))]
pub fn interval_at(intervals: &[u32], i: usize) -> Interval
    requires { 3 * i + 3 ≤ length intervals.now }
    ensures { result ≡ interval_at intervals.now i }
{
    let o = INTERVAL_WORDS * i;
    Interval {
        start: intervals[o],
        end: intervals[o + 1],
        symbol: intervals[o + 2],
    }
}

// The i-th interval becomes x.
#[tactic(auto, unfolding(crate::specs::Words::put_at))]
pub fn put_interval(intervals: &mut [u32], i: usize, x: Interval)
    requires { 3 * i + 3 ≤ length intervals.old }
    ensures { intervals.new ≡ put_at intervals.old i x }
{
    let o = INTERVAL_WORDS * i;
    intervals[o] = x.start;
    intervals[o + 1] = x.end;
    intervals[o + 2] = x.symbol;
}

// The intervals from one place up to another, laid in `out` from the place `at` on. One by one: over memory that is the function's own a
// copy of words becomes memcpy of the C library, and the library for C does without.
// Places and no slice: a place is an interval's, three words, and `&intervals[3 * from..3 * to]` at each caller is no plainer.
pub fn copy_intervals(intervals: &[u32], from: usize, to: usize, out: &mut [u32], at: usize)
    requires { (from ≤ to) × (3 * to ≤ length intervals.now) × (3 * (at + (to - from)) ≤ length out.old) }
    ensures { out.new ≡ lay_intervals out.old at (rest intervals.now from to) }
{
    let mut k = at;
    for i in from..to {
        let x = interval_at(intervals, i);
        put_interval(out, k, x);
        k += 1;
    }
}

// The i-th mapping's name.
#[tactic(auto, unfolding(metadata_rules::specs::Words::name_at))]
pub fn name_at(mappings: &[u32], i: usize) -> u32
    requires { 2 * i + 2 ≤ length mappings.now }
    ensures { result ≡ name_at mappings.now i }
{
    let o = MAPPING_WORDS * i;
    mappings[o]
}

// How many intervals the i-th mapping has.
#[tactic(auto, unfolding(metadata_rules::specs::Words::count_at))]
pub fn count_at(mappings: &[u32], i: usize) -> usize
    requires { 2 * i + 2 ≤ length mappings.now }
    ensures { result ≡ count_at mappings.now i }
{
    let o = MAPPING_WORDS * i;
    mappings[o + 1] as usize
}

// The i-th mapping becomes one of this name, with so many intervals.
#[tactic(auto, unfolding(crate::specs::Words::put_mapping))]
pub fn put_mapping(mappings: &mut [u32], i: usize, name: u32, count: usize)
    requires { (2 * i + 2 ≤ length mappings.old) × (count < 4294967296) }
    ensures { mappings.new ≡ put_mapping mappings.old i name count }
{
    let o = MAPPING_WORDS * i;
    mappings[o] = name;
    mappings[o + 1] = count as u32;
}
