// Numbers in the order of first arrival, each once. A number below the length of `marks` is found by its mark there (its place
// among the arrivals, from 1; 0 for none), any other by a search: a metadata may hold numbers that were never handed out.
ghost use Rattle.std.specs.Prelude.{◌≡◌, ℕ, ◌+◌, ◌-◌, ◌*◌, ◌<◌, ◌≤◌, length, get_or, take, set};
ghost use Rattle.metadata_rules.specs.Metadata.{add_all};
ghost use Rattle.metadata_gather.specs.Arrivals.{index_of, Marked, IsAdded, AllAdded};

// The place of a number among the arrivals, and how many there are then.
#[derive(Clone, Copy, Debug, PartialEq, Eq)]
pub struct Added {
    pub place: usize,
    pub count: usize,
}

// The first place of x among numbers, or their length.
fn first_place(numbers: &[u32], x: u32) -> usize
    ensures { result ≡ index_of numbers.now x }
{
    for i in 0..numbers.len() {
        if numbers[i] == x {
            return i;
        }
    }
    numbers.len()
}

// The place of x among numbers, or their length: by its mark, or by a search. No Option: the length is the place where x joins.
fn index_of(numbers: &[u32], marks: &[u32], x: u32) -> usize
    requires { Marked marks.now numbers.now }
    ensures { result ≡ index_of numbers.now x }
{
    let w = x as usize;
    if marks.len() <= w {
        return first_place(numbers, x);
    }
    let mark = marks[w] as usize;
    if mark == 0 {
        return numbers.len();
    }
    mark - 1
}

// The mark of x becomes k, where x has one.
fn mark(marks: &mut [u32], x: u32, k: usize)
    requires { k < 4294967296 }
    ensures { marks.new ≡ set marks.old x k }
{
    let w = x as usize;
    if w < marks.len() {
        marks[w] = k as u32;
    }
}

// x joins the first `count` numbers, unless it is there. Scratch of a fixed size with its number in use: there is no heap.
pub fn add_one(numbers: &mut [u32], count: usize, marks: &mut [u32], x: u32) -> Added
    requires { (count < length numbers.old) × (length numbers.old < 4294967296) × Marked marks.old (take count numbers.old) }
    ensures { IsAdded (take count numbers.old) x result.place result.count numbers.new marks.new }
{
    let place = index_of(&numbers[..count], marks, x);
    if place < count {
        return Added { place, count };
    }
    numbers[count] = x;
    mark(marks, x, count + 1);
    Added {
        place: count,
        count: count + 1,
    }
}

// Those that are added join the first `count` numbers, one after the other; answers how many there are then.
pub fn add_all(numbers: &mut [u32], count: usize, marks: &mut [u32], added: &[u32]) -> usize
    requires { (count + length added.now ≤ length numbers.old) × (length numbers.old < 4294967296) × Marked marks.old (take count numbers.old) }
    ensures { AllAdded (add_all (take count numbers.old) added.now) result numbers.new marks.new }
{
    let mut held = count;
    for &x in added {
        held = add_one(numbers, held, marks, x).count;
    }
    held
}
