// What comes before the mappings of a point-in-time build (RULES, The map over time, 18): 11 for the asked day, then 9, then 10 where the
// day lies outside the query's range.
ghost use Rattle.std.specs.Prelude.{◌≡◌, ◌≤◌};
ghost use Rattle.metadata_form.specs.Header.{header_fields};
ghost use Rattle.build_rules.specs.Reading.{read_by};
ghost use Rattle.build_rules.specs.PointInTime.{outside_query};
ghost use Rattle.build_point.specs.Begin.{start_for};

use build_rules::reading::{Direction, direction_by};
use leaves::refusal::Refusal;
use leaves_days::days::day_of;
use leaves_limits::DAY_NANOSECONDS;
use metadata_form::header::Header;

// The direction and the day that the mappings are read by.
#[derive(Clone, Copy, Debug, PartialEq, Eq)]
pub struct Start {
    pub direction: Direction,
    pub day: u32,
}

// Whether a day is before the start's day, or an end exists and the day starts at it or later; an end of 0 is none.
#[tactic(auto, unfolding(build_rules::specs::PointInTime::outside_query))]
fn outside_query(header: Header, day: u32) -> bool
    requires { day ≤ 213503 }
    ensures { result ≡ outside_query (header_fields header) day }
{
    let number = day as u64;
    number < header.start / DAY_NANOSECONDS
        || header.end != 0 && header.end <= number * DAY_NANOSECONDS
}

// The direction and the day of a date: 11, 9, 10.
#[tactic(auto, using(crate::specs::Begin::beginning))]
pub fn begin(header: Header, date: u32) -> Result<Start, Refusal>
    ensures { read_by result ≡ start_for (header_fields header) date }
{
    let day = day_of(date)?;
    let direction = direction_by(header.stype_in, header.stype_out)?;
    if outside_query(header, day) {
        return Err(Refusal::OutsideQuery);
    }
    Ok(Start { direction, day })
}
