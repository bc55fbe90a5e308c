// The stretches in which two tables disagree, one after another.
ghost use Rattle.std.specs.Prelude.{◌≡◌, true};
ghost use Rattle.map_compare_walk.specs.Walk.{sound};

use crate::tables::Tables;
use crate::walk::{Position, Stretch, next_step};

// How far two tables are walked.
#[derive(Clone, Copy)]
pub struct Walk<'a> {
    pub tables: Tables<'a>,
    pub left: Position,
    pub right: Position,
    pub ghost left_sound: { sound tables.left.now tables.left_used left ≡ true },
    pub ghost right_sound: { sound tables.right.now tables.right_used right ≡ true },
}

impl<'a> Walk<'a> {
    ghost use Rattle.std.specs.Iterator.{YieldsFirstBy};
    ghost use Rattle.map_compare_rules.specs.Memory.{stretches_of};
    ghost use Rattle.map_compare_walk.specs.Walk.{stretch_of};
    ghost use Rattle.map_compare_walk.specs.Stretches.{rest};

    // The walk from the start of both tables.
    pub fn new(tables: Tables<'a>) -> Walk<'a>
        ensures { let t = tables.entry in rest result ≡ stretches_of t.left.now t.left_used t.right.now t.right_used }
    {
        let start = Position::default();
        Walk {
            tables,
            left: start,
            right: start,
        }
    }

    // The next stretch, where one is left. The walk stays over the same tables.
    #[inline(always)]
    pub fn step(&mut self) -> Option<Stretch>
        ensures steps { YieldsFirstBy stretch_of rest self.old result self.new }
        ensures tables { self.new.tables ≡ self.old.tables }
    {
        while self.left.place < self.tables.left_used || self.right.place < self.tables.right_used {
            let step = next_step(self.tables, self.left, self.right);
            self.left = step.left;
            self.right = step.right;
            if let Some(stretch) = step.stretch {
                return Some(stretch);
            }
        }
        None
    }
}

impl<'a> Iterator for Walk<'a> {
    ghost use Rattle.std.specs.Iterator.{YieldsFirstBy, item_count};
    ghost use Rattle.map_compare_walk.specs.Walk.{stretch_of};
    ghost use Rattle.map_compare_walk.specs.Stretches.{rest};

    type Item = Stretch;

    ghost next_gives = { YieldsFirstBy stretch_of rest };

    ghost remaining = { item_count rest };

    #[inline(always)]
    fn next(&mut self) -> Option<Stretch> {
        self.step()
    }
}
