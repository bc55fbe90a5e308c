// The mappings that count where a metadata loses its repeats: of two with one name the last, at the place of the first.
ghost use Rattle.std.specs.Prelude.{◌≡◌, ℕ, ◌+◌, ◌-◌, ◌*◌, ◌<◌, ◌≤◌, [], length, get_or, take};
ghost use Rattle.metadata_gather.specs.Arrivals.{Marked};
ghost use Rattle.metadata_gather.specs.Picks.{picks_of};

use crate::arrivals::add_one;
use metadata_words::words::name_at;

// The places of the mappings that count go to `last`; answers how many there are. `names` and `marks` are scratch: the names in
// the order of first arrival and their marks.
pub fn picks(
    mappings: &[u32],
    count: usize,
    names: &mut [u32],
    marks: &mut [u32],
    last: &mut [usize],
) -> usize
    requires { (2 * count ≤ length mappings.now) × (count ≤ length names.old) × (length names.old < 4294967296) ×
        (count ≤ length last.old) × Marked marks.old [] }
    ensures { (result ≤ count) × (take result last.new ≡ picks_of mappings.now count) }
{
    let mut kept = 0;
    for i in 0..count {
        let a = add_one(names, kept, marks, name_at(mappings, i));
        last[a.place] = i;
        kept = a.count;
    }
    kept
}
