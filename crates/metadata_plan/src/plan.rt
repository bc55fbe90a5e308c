// The mappings of a merge: both sides gathered, tested whole in the rules' order (11, 3, 1), then merged by name (7), all in
// scratch. Helpers: the memory was tested before.
ghost use Rattle.std.specs.Prelude.{◌≡◌, ℕ, ◌+◌, ◌-◌, ◌*◌, ◌<◌, ◌≤◌, List, [], ◌++◌, length, get_or};
ghost use Rattle.metadata_rules.specs.Metadata.{Mapping, enter_all, by_name, count_intervals};
ghost use Rattle.metadata_rules.specs.Words.{mappings_from};
ghost use Rattle.metadata_lists.specs.Names.{end_names, finish_names};
ghost use Rattle.metadata_lists.specs.NamesWords.{Stands};
ghost use Rattle.metadata_gather.specs.Sides.{Sound};
ghost use Rattle.metadata_plan.specs.Plan.{Gathered, Linkable, Planable, end_plan, plan_of, both_sides};

use leaves::refusal::Refusal;
use leaves_limits::{INTERVALS, MAPPINGS, NAMES};
use metadata_gather::judge::{judge, numbers_known};
use metadata_gather::sides::{follow, lose_repeats};
use metadata_lists::link::{Linked, link, offsets};
use metadata_lists::names::{Laid, lay_names};
use metadata_words::words::{INTERVAL_WORDS, MAPPING_WORDS, Mappings};

// Scratch holds both sides together: twice the mappings, the words of their mappings and of their intervals.
const BOTH_MAPPINGS: usize = 2 * MAPPINGS;

const BOTH_MAPPING_WORDS: usize = BOTH_MAPPINGS * MAPPING_WORDS;

const BOTH_INTERVAL_WORDS: usize = 2 * INTERVALS * INTERVAL_WORDS;

// The mappings of both sides: the left one's without its repeats, then the right one's.
fn gather_sides(
    left: Mappings<'_>,
    right: Mappings<'_>,
    both_mappings: &mut [u32],
    both_intervals: &mut [u32],
) -> Laid
    requires { Gathered left.words.now left.count left.intervals.now right.words.now right.count right.intervals.now (length both_mappings.old) (length both_intervals.old) }
    ensures { Stands (both_sides left.entry.words.now left.entry.count left.entry.intervals.now right.entry.words.now right.entry.count
        right.entry.intervals.now) both_mappings.new result.mappings both_intervals.new result.intervals }
{
    let laid = lose_repeats(left, both_mappings, both_intervals);
    follow(right, both_mappings, both_intervals, laid)
}

// The mappings of both sides merged by name, in `out_mappings` and `out_intervals`; none where two intervals conflict.
fn merge_names(
    both: Mappings<'_>,
    temp: &mut [u32],
    out_mappings: &mut [u32],
    out_intervals: &mut [u32],
) -> Option<Laid>
    requires { Linkable both.words.now both.count both.intervals.now (length temp.old) (length out_mappings.old) (length out_intervals.old) }
    ensures { end_names result out_mappings.new out_intervals.new ≡ finish_names out_mappings.old 0
        out_intervals.old 0 (by_name (mappings_from both.entry.words.now both.entry.intervals.now 0 0 both.entry.count)) }
{
    let mut starts = [0usize; BOTH_MAPPINGS];
    let mut nexts = [0usize; BOTH_MAPPINGS];
    let mut firsts = [both.count; NAMES];
    offsets(both.words, both.count, &mut starts);
    link(both.words, both.count, &mut nexts, &mut firsts);
    let linked = Linked {
        mappings: both,
        starts: &starts,
        nexts: &nexts,
        firsts: &firsts,
    };
    lay_names(linked, temp, out_mappings, out_intervals)
}

// What the mappings of both sides come to: 11, 3, 1 or 7, or the merge by name in `out_mappings` and `out_intervals`. `rest` says
// whether the name numbers besides the mappings' were handed out.
pub fn plan(
    left: Mappings<'_>,
    right: Mappings<'_>,
    names: usize,
    rest: bool,
    out_mappings: &mut [u32],
    out_intervals: &mut [u32],
) -> Result<Laid, Refusal>
    requires { Planable left.words.now left.count left.intervals.now right.words.now right.count right.intervals.now names (length out_mappings.old) (length out_intervals.old) }
    ensures { end_plan result out_mappings.new out_intervals.new ≡ plan_of names rest
        (both_sides left.entry.words.now left.entry.count left.entry.intervals.now right.entry.words.now right.entry.count
        right.entry.intervals.now) out_mappings.old out_intervals.old }
{
    let mut both_mappings = [0u32; BOTH_MAPPING_WORDS];
    let mut both_intervals = [0u32; BOTH_INTERVAL_WORDS];
    let gathered = gather_sides(left, right, &mut both_mappings, &mut both_intervals);
    let named = numbers_known(&both_mappings, MAPPING_WORDS, gathered.mappings, names);
    judge(&both_intervals, gathered.intervals, names, rest & named)?;
    let both = Mappings {
        words: &both_mappings,
        count: gathered.mappings,
        intervals: &both_intervals,
    };
    let mut temp = [0u32; BOTH_INTERVAL_WORDS];
    merge_names(both, &mut temp, out_mappings, out_intervals).ok_or(Refusal::Conflict)
}
