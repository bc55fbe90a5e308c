// Which interval of a mapping counts for a day (RULES, The map over time, 18): the first with start <= day < end. Both dates of each
// interval up to it are read.
ghost use Rattle.std.specs.Prelude.{◌≡◌};
ghost use Rattle.build_rules.specs.Reading.{day_in, read_by, intervals_in};
ghost use Rattle.build_rules.specs.PointInTime.{counting};
ghost use Rattle.build_entry.specs.Counted.{covered, counted_of};

use leaves::refusal::Refusal;
use leaves_days::days::day_of;
use metadata_rules::Interval;
use metadata_words::words::{INTERVAL_WORDS, interval_at};

// Whether an interval covers a day, or 11 for a date of it.
#[tactic(auto, using(crate::specs::Counted::covering))]
fn covers(interval: Interval, day: u32) -> Result<bool, Refusal>
    ensures { read_by result ≡ covered day (day_in interval.start) (day_in interval.end) }
{
    let first = day_of(interval.start)?;
    let after = day_of(interval.end)?;
    Ok(first <= day && day < after)
}

// The first interval of a mapping that covers a day, with its number in the mapping; or the number of one with a date that is none
// (11), which is read on the way.
#[tactic(auto, using(crate::specs::Counted::searching))]
pub fn first_covering(intervals: &[u32], day: u32) -> Result<Option<(usize, Interval)>, usize>
    ensures { counted_of result ≡ counting day 0 (intervals_in intervals.now) }
{
    for k in 0..intervals.len() / INTERVAL_WORDS {
        let interval = interval_at(intervals, k);
        match covers(interval, day) {
            Err(_) => return Err(k),
            Ok(true) => return Ok(Some((k, interval))),
            Ok(false) => {}
        }
    }
    Ok(None)
}
