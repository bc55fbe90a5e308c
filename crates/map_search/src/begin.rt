// Where an instrument's intervals begin in a table over time that is in order: the search by the instrument alone.
ghost use Rattle.std.specs.Prelude.{◌+◌, ◌*◌, ◌≤◌, length};
ghost use Rattle.leaves_limits.specs.Limits.{most_room};
ghost use Rattle.map_rules.specs.Table.{Ordered};
ghost use Rattle.map_rules.specs.Memory.{width, rows};
ghost use Rattle.map_rules.specs.Halves.{Probe, Finds};
ghost use Rattle.map_rules.specs.Looks.{Begun};
ghost use Rattle.map_rules.specs.Arrivals.{is_lower};

use crate::search::Test;
use map_table::interval::WIDTH;

// The interval is of a lower instrument than this one.
#[derive(Clone, Copy)]
pub struct Lower {
    pub instrument: u32,
}

impl Test for Lower {
    ghost passes = { λ s t. is_lower t s.instrument };

    #[inline(always)]
    #[tactic(auto, using(map_rules::specs::Arrivals::lower_probe))]
    fn is_passed(&self, table: &[u8], at: usize) -> bool {
        leaves_fields::fields::u32_at(table, at) < self.instrument
    }
}

// Where the first of so many intervals begins, from the bytes lo on, that is of the instrument or of a higher one.
pub fn turn(table: &[u8], lo: usize, count: usize, instrument: u32) -> usize
    requires { (count ≤ most_room) × (lo + count * width ≤ length table.now) }
    ensures within { result ≤ lo + count * width }
    ensures right { Finds (is_lower table.now instrument) lo count result }
{
    crate::search::turn(&Lower { instrument }, table, lo, count)
}

// The place of the instrument's first interval, or where it would stand.
#[tactic(auto, using(map_rules::specs::Arrivals::begun_at))]
pub fn beginning(table: &[u8], used: usize, instrument: u32) -> usize
    requires { (used * width ≤ length table.now) × (used ≤ most_room) }
    ensures within { result ≤ used }
    ensures right { Ordered (rows table.now used) → Begun table.now used instrument result 0 }
{
    crate::search::narrow(&Lower { instrument }, table, 0, used) / WIDTH
}
