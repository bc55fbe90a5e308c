// A set of both sides: equal entries once, in the order of first arrival.
ghost use Rattle.std.specs.Prelude.{◌≡◌, [], ◌+◌, ◌<◌, ◌≤◌, length};
ghost use Rattle.metadata_gather.specs.Sets.{IsUnited, AllUnited};

use crate::arrivals::add_all;
use crate::judge::numbers_known;
use leaves_limits::NAMES;

// Whether each entry was handed out, and how many the outcome has. No Option: 11 comes before 3, so both are needed.
#[derive(Clone, Copy, Debug, PartialEq, Eq)]
pub struct United {
    pub known: bool,
    pub count: usize,
}

// The entries, each once, at the front of `out`; answers how many.
pub fn alone(entries: &[u32], out: &mut [u32]) -> usize
    requires { (length entries.now ≤ length out.old) × (length out.old < 4294967296) }
    ensures { AllUnited entries.now [] result out.new }
{
    let mut marks = [0u32; NAMES];
    add_all(out, 0, &mut marks, entries)
}

// The set of both sides at the front of `out`, and whether each of its entries was handed out.
pub fn unite(left: &[u32], right: &[u32], names: usize, out: &mut [u32]) -> United
    requires { (length left.now + length right.now ≤ length out.old) × (length out.old < 4294967296) }
    ensures { IsUnited left.now right.now names result.known result.count out.new }
{
    let mut marks = [0u32; NAMES];
    let met = add_all(out, 0, &mut marks, left);
    let count = add_all(out, met, &mut marks, right);
    United {
        known: numbers_known(out, 1, count, names),
        count,
    }
}
