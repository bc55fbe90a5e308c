// The list of a run, and its limits (RULES, Requests, No. 14): three words a record, from the list's front, and at most 4,096 calls.
ghost use Rattle.std.specs.Prelude.{◌≡◌, ◌+◌, ◌*◌, ◌≤◌, length};
ghost use Rattle.run_rules.specs.Rows.{run_fits, most, row};

use leaves_limits::CALLS;

// The words of a record in a run's list: stream, place, time.
pub const WORDS: usize = 3;

// A record's row of the list.
#[derive(Clone, Copy, Debug, PartialEq, Eq)]
pub struct Row {
    pub stream: u64,
    pub place: u64,
    pub time: u64,
}

// Writes a row of the list.
pub fn put_row(list: &mut [u64], at: usize, written: Row)
    requires { 3 * at + 3 ≤ length list.old }
    ensures { list.new ≡ row list.old at written.stream written.place written.time }
{
    list[WORDS * at] = written.stream;
    list[WORDS * at + 1] = written.place;
    list[WORDS * at + 2] = written.time;
}

// Whether what is lent to a run fits: the arrays, an allowance of at most 4,096, a list of whole rows; where not, 15.
pub fn run_fits(arrays: bool, allowance: usize, words: usize) -> bool
    ensures { result ≡ run_fits arrays allowance words }
{
    arrays && allowance <= CALLS && words % WORDS == 0
}

// The most calls that a run makes: no more than allowed, and none where the list is full.
pub fn limit_of(allowance: usize, words: usize) -> usize
    ensures { result ≡ most allowance words }
{
    let rows = words / WORDS;
    allowance.min(rows)
}
