// Every name's outcome, one after the other, in the order of first arrival.
ghost use Rattle.std.specs.Prelude.{◌≡◌, ◌+◌, ◌-◌, ◌*◌, ◌<◌, ◌≤◌, length, get_or};
ghost use Rattle.metadata_rules.specs.Words.{name_at};
ghost use Rattle.metadata_lists.specs.Name.{Ready};
ghost use Rattle.metadata_lists.specs.Names.{end_names, step_at, finish_names, collect_to};
ghost use Rattle.metadata_lists.specs.NamesLaying.{AllReady};

use crate::link::Linked;
use crate::name::lay_name;
use metadata_words::words::{name_at, put_mapping};

// How many mappings and intervals are laid.
#[derive(Clone, Copy, Debug, PartialEq, Eq)]
pub struct Laid {
    pub mappings: usize,
    pub intervals: usize,
}

// The place i: its name's outcome where it is the name's first, behind what is laid already; none where two intervals conflict.
fn lay_place(
    linked: Linked<'_>,
    i: usize,
    temp: &mut [u32],
    out_mappings: &mut [u32],
    out_intervals: &mut [u32],
    laid: Laid,
) -> Option<Laid>
    requires { (2 * laid.mappings + 2 ≤ length out_mappings.old) × (i < linked.mappings.count) ×
        (2 * linked.mappings.count ≤ length linked.mappings.words.now) ×
        (name_at linked.mappings.words.now i < length linked.firsts.now) × (length out_intervals.old < 4294967296) ×
        (get_or linked.firsts.now (name_at linked.mappings.words.now i) 0 ≡ i → Ready linked.mappings.words.now linked.mappings.count
        linked.mappings.intervals.now linked.starts.now linked.nexts.now i (length temp.old)
        (length out_intervals.old) laid.intervals) }
    ensures { end_names result out_mappings.new out_intervals.new ≡ step_at linked.entry.mappings.words.now linked.entry.mappings.intervals.now
        linked.entry.starts.now linked.entry.firsts.now linked.entry.mappings.count i out_mappings.old laid.mappings out_intervals.old
        laid.intervals }
{
    let name = name_at(linked.mappings.words, i);
    if linked.firsts[name as usize] != i {
        return Some(laid);
    }
    let end = lay_name(linked, i, temp, out_intervals, laid.intervals)?;
    put_mapping(out_mappings, laid.mappings, name, end - laid.intervals);
    Some(Laid {
        mappings: laid.mappings + 1,
        intervals: end,
    })
}

// Every name's outcome: the mappings' words in `out_mappings`, the intervals' in `out_intervals`; none where two intervals conflict.
// A helper: the mappings are linked, and what all of them have together fits these and `temp`.
pub fn lay_names(
    linked: Linked<'_>,
    temp: &mut [u32],
    out_mappings: &mut [u32],
    out_intervals: &mut [u32],
) -> Option<Laid>
    requires { AllReady linked.mappings.words.now linked.mappings.count linked.mappings.intervals.now linked.starts.now linked.nexts.now
        linked.firsts.now (length temp.old) (length out_mappings.old) (length out_intervals.old) }
    ensures { end_names result out_mappings.new out_intervals.new ≡ finish_names out_mappings.old 0
        out_intervals.old 0 (collect_to linked.entry.mappings.words.now linked.entry.mappings.intervals.now linked.entry.starts.now
        linked.entry.firsts.now linked.entry.mappings.count 0) }
{
    let mut laid = Laid {
        mappings: 0,
        intervals: 0,
    };
    for i in 0..linked.mappings.count {
        laid = lay_place(linked, i, temp, out_mappings, out_intervals, laid)?;
    }
    Some(laid)
}
