// Two tables over time side by side, both in order, with so many of their intervals in use.
ghost use Rattle.std.specs.Prelude.{◌≡◌, true, ◌*◌, ◌≤◌, length};
ghost use Rattle.leaves_limits.specs.Limits.{most_room};
ghost use Rattle.map_rules.specs.Table.{ordered};
ghost use Rattle.map_rules.specs.Memory.{same_value, width, rows};

#[derive(Clone, Copy)]
pub struct Tables<'a> {
    pub left: &'a [u8],
    pub left_used: usize,
    pub right: &'a [u8],
    pub right_used: usize,
    pub ghost left_fits: { left_used * width ≤ length left.now },
    pub ghost right_fits: { right_used * width ≤ length right.now },
    pub ghost left_few: { left_used ≤ most_room },
    pub ghost right_few: { right_used ≤ most_room },
    pub ghost left_order: { ordered same_value (rows left.now left_used) ≡ true },
    pub ghost right_order: { ordered same_value (rows right.now right_used) ≡ true },
}
