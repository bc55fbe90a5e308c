// A place found among sorted ones, whatever they hold: halving by a test.
ghost use Rattle.std.specs.Prelude.{ℕ, true, false, ◌<◌};
ghost use Rattle.map_table.specs.Places.{Divides};

// The first of so many places that doesn't pass the test, where those that pass it stand in front. The places need not be in that
// order: what is said is what the two beside the answer tell.
pub fn first_not<F: Fn(usize) -> bool>(count: usize, is_before: F) -> usize
    requires { (place : ℕ) → place < count → F.pre is_before place }
    ensures { Divides (F.post is_before) count result }
{
    let mut low = 0;
    let mut high = count;
    while low < high {
        let middle = low + (high - low) / 2;
        if is_before(middle) {
            low = middle + 1;
        } else {
            high = middle;
        }
    }
    low
}
