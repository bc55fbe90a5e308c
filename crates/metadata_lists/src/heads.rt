// The walk over the intervals of one name by their two heads, a and b (RULES, Merging metadata). The Rust's `merge_intervals`,
// `ordering` and `IntervalOrdering`; a conflict is found after the ordering, not in it.
ghost use Rattle.std.specs.Prelude.{◌≡◌, ◌+◌, ◌-◌, ◌*◌, ◌≤◌, length};
ghost use Rattle.metadata_rules.specs.Walk.{walk};
ghost use Rattle.metadata_rules.specs.Walk.{ordering as orderingOf};
ghost use Rattle.metadata_rules.specs.Walk.{joined as joinedOf};
ghost use Rattle.metadata_words.specs.Words.{rest};
ghost use Rattle.metadata_lists.specs.Heads.{finish, agreed_step, step_of, ended_of};

use metadata_rules::{Interval, IntervalOrdering};
use metadata_words::words::{copy_intervals, interval_at, put_interval};

// An interval that goes out, and how many of each list are consumed.
#[derive(Clone, Copy, Debug, PartialEq, Eq)]
pub struct Step {
    pub interval: Interval,
    pub left: usize,
    pub right: usize,
}

// How a lies to b, the tests in the rules' order: the same dates first.
#[tactic(auto, unfolding(metadata_rules::specs::Walk::ordering, metadata_rules::specs::Walk::same_dates))]
pub fn ordering(a: Interval, b: Interval) -> IntervalOrdering
    ensures { result ≡ orderingOf a b }
{
    if a.start == b.start && a.end == b.end {
        return IntervalOrdering::Equal;
    }
    if a.end <= b.start {
        return IntervalOrdering::Less;
    }
    if b.end <= a.start {
        return IntervalOrdering::Greater;
    }
    IntervalOrdering::Overlap
}

// Lesser start to greater end.
#[tactic(auto, unfolding(metadata_rules::specs::Walk::joined))]
fn joined(a: Interval, b: Interval) -> Interval
    ensures { result ≡ joinedOf a b }
{
    Interval {
        start: a.start.min(b.start),
        end: a.end.max(b.end),
        symbol: a.symbol,
    }
}

// An interval for both heads, where their symbols are the same.
#[tactic(auto, unfolding(crate::specs::Heads::agreed_step))]
fn agreed(a: Interval, b: Interval, interval: Interval) -> Option<Step>
    ensures { result ≡ agreed_step a b interval }
{
    if a.symbol != b.symbol {
        return None;
    }
    Some(Step {
        interval,
        left: 1,
        right: 1,
    })
}

// What the heads a and b give; none where they conflict.
#[tactic(auto, unfolding(crate::specs::Heads::step_of, crate::specs::Heads::step_on))]
fn turn(a: Interval, b: Interval) -> Option<Step>
    ensures { result ≡ step_of a b }
{
    match ordering(a, b) {
        IntervalOrdering::Equal => agreed(a, b, a),
        IntervalOrdering::Less => Some(Step {
            interval: a,
            left: 1,
            right: 0,
        }),
        IntervalOrdering::Greater => Some(Step {
            interval: b,
            left: 0,
            right: 1,
        }),
        IntervalOrdering::Overlap => agreed(a, b, joined(a, b)),
    }
}

// The walk over two stretches, laid in `out` from the place `at` on; answers the place behind the last interval laid, or none where
// two conflict. A helper: the stretches stand in their lists, and both together fit `out` there.
// Places and no slices: a place is an interval's, three words, and `&left[3 * from..3 * to]` at each caller is no plainer.
pub fn merge_intervals(
    left: &[u32],
    left_from: usize,
    left_to: usize,
    right: &[u32],
    right_from: usize,
    right_to: usize,
    out: &mut [u32],
    at: usize,
) -> Option<usize>
    requires { (left_from ≤ left_to) × (3 * left_to ≤ length left.now) × (right_from ≤ right_to) × (3 * right_to ≤ length right.now) ×
        (3 * (at + (left_to - left_from) + (right_to - right_from)) ≤ length out.old) }
    ensures { ended_of result out.new ≡ finish out.old at (walk (rest left.now left_from left_to) (rest right.now right_from right_to)) }
{
    let mut i = left_from;
    let mut j = right_from;
    let mut k = at;
    while i < left_to && j < right_to {
        let step = turn(interval_at(left, i), interval_at(right, j))?;
        put_interval(out, k, step.interval);
        i += step.left;
        j += step.right;
        k += 1;
    }
    if i < left_to {
        copy_intervals(left, i, left_to, out, k);
        return Some(k + (left_to - i));
    }
    copy_intervals(right, j, right_to, out, k);
    Some(k + (right_to - j))
}
