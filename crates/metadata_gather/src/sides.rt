// The mappings of two sides one after the other, the first side without its repeats: two words a mapping in `both_mappings`, three
// an interval in `both_intervals`, as in lent memory. So many of each are laid already.
ghost use Rattle.std.specs.Prelude.{◌≡◌, ℕ, ◌+◌, ◌-◌, ◌*◌, ◌<◌, ◌≤◌, [], ◌++◌, length, get_or};
ghost use Rattle.metadata_rules.specs.Metadata.{enter_all};
ghost use Rattle.metadata_rules.specs.Words.{name_at, count_at, mappings_from, before};
ghost use Rattle.metadata_words.specs.Words.{put_mapping};
ghost use Rattle.metadata_words.specs.Words.{lay_intervals as layFrom};
ghost use Rattle.metadata_lists.specs.Flat.{list_at};
ghost use Rattle.metadata_lists.specs.Names.{placed, lay_all};
ghost use Rattle.metadata_gather.specs.Sides.{Within, Layable, picked_to, Sound};

use crate::picks::picks;
use leaves_limits::MAPPINGS;
use metadata_lists::link::offsets;
use metadata_lists::names::Laid;
use metadata_words::words::{Mappings, copy_intervals, count_at, name_at, put_mapping};

// The i-th mapping, laid behind those laid already, and its intervals; answers how many are laid then.
fn lay_mapping(
    mappings: Mappings<'_>,
    starts: &[usize],
    i: usize,
    both_mappings: &mut [u32],
    both_intervals: &mut [u32],
    laid: Laid,
) -> Laid
    requires { Within mappings.words.now mappings.intervals.now starts.now i × (2 * laid.mappings + 2 ≤ length both_mappings.old) ×
        (3 * (laid.intervals + count_at mappings.words.now i) ≤ length both_intervals.old) × (length both_intervals.old < 4294967296) }
    ensures { (both_mappings.new ≡ put_mapping both_mappings.old laid.mappings (name_at mappings.entry.words.now i)
        (count_at mappings.entry.words.now i)) × (both_intervals.new ≡ layFrom both_intervals.old laid.intervals
        (list_at mappings.entry.words.now mappings.entry.intervals.now starts.now i)) × (result.mappings ≡ laid.mappings + 1) ×
        (result.intervals ≡ laid.intervals + count_at mappings.entry.words.now i) }
{
    let name = name_at(mappings.words, i);
    let size = count_at(mappings.words, i);
    let start = starts[i];
    put_mapping(both_mappings, laid.mappings, name, size);
    copy_intervals(
        mappings.intervals,
        start,
        start + size,
        both_intervals,
        laid.intervals,
    );
    Laid {
        mappings: laid.mappings + 1,
        intervals: laid.intervals + size,
    }
}

// The mappings at the first `count` of `places`, laid one after the other; answers how many are laid then.
fn lay_places(
    mappings: Mappings<'_>,
    starts: &[usize],
    places: &[usize],
    count: usize,
    both_mappings: &mut [u32],
    both_intervals: &mut [u32],
    laid: Laid,
) -> Laid
    requires { Layable mappings.words.now mappings.intervals.now starts.now places.now count (length both_mappings.old) laid.mappings
        (length both_intervals.old) laid.intervals }
    ensures { (result.mappings ≡ laid.mappings + count) × (placed both_mappings.new result.mappings both_intervals.new result.intervals ≡
        lay_all both_mappings.old
        laid.mappings both_intervals.old laid.intervals
        (picked_to mappings.entry.words.now mappings.entry.intervals.now starts.now places.now 0 count)) }
{
    let mut so_far = laid;
    for i in 0..count {
        so_far = lay_mapping(
            mappings,
            starts,
            places[i],
            both_mappings,
            both_intervals,
            so_far,
        );
    }
    so_far
}

// The first `count` places hold their own numbers.
fn count_up(places: &mut [usize], count: usize)
    requires { count ≤ length places.old }
    ensures { (t : ℕ) → t < count → get_or places.new t 0 ≡ t }
{
    for i in 0..count {
        places[i] = i;
    }
}

// A first metadata's mappings without its repeats.
pub fn lose_repeats(
    mappings: Mappings<'_>,
    both_mappings: &mut [u32],
    both_intervals: &mut [u32],
) -> Laid
    requires { Sound mappings.words.now mappings.count mappings.intervals.now (length both_mappings.old) 0 (length both_intervals.old) 0 }
    ensures { placed both_mappings.new result.mappings both_intervals.new result.intervals ≡ lay_all both_mappings.old 0
        both_intervals.old 0 (enter_all [] (mappings_from mappings.entry.words.now mappings.entry.intervals.now 0 0 mappings.entry.count)) }
{
    let mut starts = [0usize; MAPPINGS];
    let mut names = [0u32; MAPPINGS];
    let mut marks = [0u32; MAPPINGS];
    let mut last = [0usize; MAPPINGS];
    offsets(mappings.words, mappings.count, &mut starts);
    let kept = picks(
        mappings.words,
        mappings.count,
        &mut names,
        &mut marks,
        &mut last,
    );
    let none = Laid {
        mappings: 0,
        intervals: 0,
    };
    lay_places(
        mappings,
        &starts,
        &last,
        kept,
        both_mappings,
        both_intervals,
        none,
    )
}

// An added metadata's mappings, behind those laid already; answers how many are laid then.
pub fn follow(
    mappings: Mappings<'_>,
    both_mappings: &mut [u32],
    both_intervals: &mut [u32],
    laid: Laid,
) -> Laid
    requires { Sound mappings.words.now mappings.count mappings.intervals.now (length both_mappings.old) laid.mappings
        (length both_intervals.old) laid.intervals }
    ensures { (result.mappings ≡ laid.mappings + mappings.entry.count) ×
        (placed both_mappings.new result.mappings both_intervals.new result.intervals ≡ lay_all both_mappings.old
        laid.mappings both_intervals.old laid.intervals (mappings_from mappings.entry.words.now mappings.entry.intervals.now 0 0
        mappings.entry.count)) }
{
    let mut starts = [0usize; MAPPINGS];
    let mut places = [0usize; MAPPINGS];
    offsets(mappings.words, mappings.count, &mut starts);
    count_up(&mut places, mappings.count);
    lay_places(
        mappings,
        &starts,
        &places,
        mappings.count,
        both_mappings,
        both_intervals,
        laid,
    )
}
