// One name's outcome: the walk over its lists in the order of their arrival.
ghost use Rattle.std.specs.Prelude.{◌≡◌, ◌+◌, ◌-◌, ◌*◌, ◌<◌, ◌≤◌, length, get_or};
ghost use Rattle.metadata_lists.specs.Heads.{finish, ended_of};
ghost use Rattle.metadata_lists.specs.Name.{outcome_at, Ready};

use crate::heads::merge_intervals;
use crate::link::Linked;
use metadata_words::words::{copy_intervals, count_at};

// The outcome of the name that the i-th mapping is the first of, laid in `out` from the place `at` on: its list, walked with
// each later one of the name. Answers the place behind it, or none where two intervals conflict.
pub fn lay_name(
    linked: Linked<'_>,
    i: usize,
    temp: &mut [u32],
    out: &mut [u32],
    at: usize,
) -> Option<usize>
    requires { Ready linked.mappings.words.now linked.mappings.count linked.mappings.intervals.now linked.starts.now linked.nexts.now i
        (length temp.old) (length out.old) at }
    ensures { ended_of result out.new ≡ finish out.old at (outcome_at linked.entry.mappings.words.now linked.entry.mappings.intervals.now
        linked.entry.starts.now linked.entry.mappings.count i) }
{
    let mappings = linked.mappings;
    let intervals = mappings.intervals;
    let mut laid = 0;
    let mut j = i;
    while j < mappings.count {
        copy_intervals(out, at, at + laid, temp, 0);
        let start = linked.starts[j];
        let size = count_at(mappings.words, j);
        let end = merge_intervals(temp, 0, laid, intervals, start, start + size, out, at)?;
        laid = end - at;
        j = linked.nexts[j];
    }
    Some(at + laid)
}
