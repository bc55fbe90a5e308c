// How far a moment reaches among an instrument's intervals, in a table over time that is in order: the first that starts later.
ghost use Rattle.std.specs.Prelude.{◌+◌, ◌*◌, ◌≤◌, length};
ghost use Rattle.leaves_limits.specs.Limits.{most_room};
ghost use Rattle.map_rules.specs.Table.{Ordered};
ghost use Rattle.map_rules.specs.Memory.{width, rows};
ghost use Rattle.map_rules.specs.Looks.{Begun, Reach};
ghost use Rattle.map_rules.specs.Arrivals.{is_own_started, Reached};

use crate::search::{Test, narrow};
use crate::starts::Started;
use map_table::interval::WIDTH;

// So many intervals are taken for an instrument's before the whole table is.
const FEW: usize = 31;

const FEW_BYTES: usize = FEW * WIDTH;

// The interval is of this instrument and has started at this moment.
#[derive(Clone, Copy)]
pub struct OwnStarted {
    pub instrument: u32,
    pub moment: u64,
}

impl Test for OwnStarted {
    ghost passes = { λ s t. is_own_started t s.instrument s.moment };

    #[inline(always)]
    #[tactic(auto, using(map_rules::specs::Arrivals::own_probe, map_rules::specs::Arrivals::other_probe))]
    fn is_passed(&self, table: &[u8], at: usize) -> bool {
        leaves_fields::fields::u32_at(table, at) == self.instrument
            && Started {
                moment: self.moment,
            }
            .is_passed(table, at)
    }
}

// The bytes where the first interval begins that the moment does not reach, where those of the instrument begin at the bytes `begin`:
// few of them, or all up to the table's end, or any.
#[tactic(auto, using(map_rules::specs::Arrivals::reached_few, map_rules::specs::Arrivals::reached_own, map_rules::specs::Arrivals::reached_any))]
pub fn beyond(table: &[u8], used: usize, begin: usize, instrument: u32, moment: u64) -> usize
    requires { (used * width ≤ length table.now) × (used ≤ most_room) × (begin ≤ used * width) }
    ensures within { result ≤ used * width }
    ensures right { Reached table.now used instrument moment begin result }
{
    let own = OwnStarted { instrument, moment };
    let end = used * WIDTH;
    if begin + FEW_BYTES + WIDTH <= end
        && instrument < leaves_fields::fields::u32_at(table, begin + FEW_BYTES)
    {
        return narrow(&own, table, begin, FEW);
    }
    let count = (end - begin) / WIDTH;
    if WIDTH <= end && leaves_fields::fields::u32_at(table, end - WIDTH) == instrument {
        return crate::search::turn(&Started { moment }, table, begin, count);
    }
    narrow(&own, table, begin, count)
}

// The place of the first interval that the moment does not reach, where those of the instrument begin at the place `begin`.
#[tactic(auto, using(map_rules::specs::Arrivals::reach_at))]
pub fn reached(table: &[u8], used: usize, begin: usize, instrument: u32, moment: u64) -> usize
    requires { (used * width ≤ length table.now) × (used ≤ most_room) × (begin ≤ used) }
    ensures within { result ≤ used }
    ensures right { Ordered (rows table.now used) → Begun table.now used instrument begin 0 → Reach table.now used instrument moment result result }
{
    narrow(
        &OwnStarted { instrument, moment },
        table,
        begin * WIDTH,
        used - begin,
    ) / WIDTH
}
