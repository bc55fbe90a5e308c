// How many of an instrument's intervals have started at a moment: the search by the start alone, among intervals that are all of one
// instrument.
ghost use Rattle.map_rules.specs.Arrivals.{is_started};

use crate::search::Test;

// The interval has started at this moment.
#[derive(Clone, Copy)]
pub struct Started {
    pub moment: u64,
}

impl Test for Started {
    ghost passes = { λ s t. is_started t s.moment };

    #[inline(always)]
    #[tactic(auto, using(map_rules::specs::Arrivals::started_probe))]
    fn is_passed(&self, table: &[u8], at: usize) -> bool {
        leaves_fields::fields::u64_at(table, at + 8) <= self.moment
    }
}
