// A cursor for one instrument holds its hint and is updated in place by each lookup (RULES, The map over time).
ghost use Rattle.std.specs.Prelude.{◌≡◌, true, not, ◌||◌, length, T};
ghost use Rattle.map_rules.specs.Table.{ordered};
ghost use Rattle.map_rules.specs.Memory.{same_value, rows, table_fits};
ghost use Rattle.map_rules.specs.Looks.{number_in, lookup_answer, lookup_hint};
ghost use Rattle.map_look.specs.Lookup.{found_of, looked_of};

use crate::lookup::{Looked, get_for_ts};
use leaves::refusal::Refusal;

// The hint of one instrument, 0 at first.
#[derive(Clone, Copy, Debug, Default, PartialEq, Eq)]
pub struct Cursor {
    pub hint: u64,
}

impl Cursor {
    // The symbol of the instrument at the moment, with the cursor's hint, which becomes the new hint: 15 only, which leaves it.
    pub fn follow(
        &mut self,
        table: &[u8],
        used: usize,
        instrument: u32,
        moment: u64,
    ) -> Result<Option<u32>, Refusal>
        ensures { (T (not (table_fits (length table.now) used) || ordered same_value (rows table.now used)) →
            (found_of result self.new.hint ≡ lookup_answer table.now used instrument moment self.old.hint) ×
            (self.new.hint ≡ lookup_hint table.now used instrument moment self.old.hint)) ×
            (table_fits (length table.now) used ≡ true → number_in (found_of result self.new.hint) ≡ 0) }
    {
        let looked = get_for_ts(table, used, instrument, moment, self.hint);
        self.hint = looked.hint;
        looked.found
    }
}

// The same on plain numbers: a cursor that is made, lent and read here.
pub fn follow_once(table: &[u8], used: usize, instrument: u32, moment: u64, hint: u64) -> Looked
    ensures { (T (not (table_fits (length table.now) used) || ordered same_value (rows table.now used)) →
        (looked_of result ≡ lookup_answer table.now used instrument moment hint) × (result.hint ≡ lookup_hint table.now used instrument moment hint))
        × (table_fits (length table.now) used ≡ true → number_in (looked_of result) ≡ 0) }
{
    let mut cursor = Cursor { hint };
    let found = cursor.follow(table, used, instrument, moment);
    Looked {
        found,
        hint: cursor.hint,
    }
}
