// A stretch in bytes (RULES, Requests, No. 1: instrument, left symbol or nothing, right symbol or nothing, start, end): 28, little-endian. No other file
// knows them.
ghost use Rattle.std.specs.Prelude.{◌≡◌, ◌+◌, ◌*◌, ◌≤◌, length};
ghost use Rattle.map_compare_rules.specs.Memory.{stretch_width, put_stretch};
ghost use Rattle.map_compare_walk.specs.Walk.{stretch_of};

use leaves_fields::fields::{put_u32, put_u64};
use map_compare_walk::walk::Stretch;

// The bytes of a stretch.
pub const STRETCH_WIDTH: usize = 28;
// No symbol on this side: no name has this number.
pub const NOTHING: u32 = 4294967295;

// Puts a stretch at place i of the list.
pub fn put_stretch(stretches: &mut [u8], i: usize, s: Stretch)
    requires { i * stretch_width + stretch_width ≤ length stretches.old }
    ensures { stretches.new ≡ put_stretch stretches.old i (stretch_of s) }
{
    let o = i * STRETCH_WIDTH;
    put_u32(stretches, o, s.instrument);
    put_u32(stretches, o + 4, s.left.unwrap_or(NOTHING));
    put_u32(stretches, o + 8, s.right.unwrap_or(NOTHING));
    put_u64(stretches, o + 12, s.start);
    put_u64(stretches, o + 20, s.end);
}
