// A binary search in a table over time, by a test that holds of the intervals before a place and of none from it on. Places are held
// by the bytes where they begin, so that a step is three instructions where its length is known.
ghost use Rattle.std.specs.Prelude.{◌+◌, ◌*◌, ◌≤◌, ◌<◌, ℕ, Bool, List, length};
ghost use Rattle.leaves_limits.specs.Limits.{most_room};
ghost use Rattle.map_rules.specs.Memory.{width};
ghost use Rattle.map_rules.specs.Halves.{Probe, Onward, Halved, Finds};

use map_table::interval::WIDTH;

// What a search asks of an interval.
pub trait Test {
    // Whether the interval at a place of the table passes.
    ghost passes: { Self → List ℕ → ℕ → Bool };

    // Whether the interval in the bytes from `at` on passes.
    fn is_passed(&self, table: &[u8], at: usize) -> bool
        requires { at + width ≤ length table.now }
        ensures { Probe (passes self.now table.now) at result };
}

// The bytes `at`, or those a step of so many places further on where the interval before them passes.
#[inline(always)]
#[tactic(auto, using(map_rules::specs::Halves::onward_yes, map_rules::specs::Halves::onward_no))]
fn onward<T: Test>(test: &T, table: &[u8], at: usize, step: usize) -> usize
    requires { (0 < step) × (at + step * width ≤ length table.now) }
    ensures within { result ≤ at + step * width }
    ensures right { Onward (T.passes test.now table.now) at step result }
{
    let next = at + step * WIDTH;
    if test.is_passed(table, next - WIDTH) {
        next
    } else {
        at
    }
}

// Where the first of so many intervals begins, from the bytes lo on, that does not pass; or the bytes behind them.
#[inline(always)]
#[tactic(auto, using(map_rules::specs::Halves::narrowed_all, map_rules::specs::Halves::narrowed_on, map_rules::specs::Halves::narrowed_end))]
pub fn narrow<T: Test>(test: &T, table: &[u8], lo: usize, count: usize) -> usize
    requires { lo + count * width ≤ length table.now }
    ensures within { result ≤ lo + count * width }
    ensures right { Finds (T.passes test.now table.now) lo count result }
{
    let mut at = lo;
    let mut left = count;
    while 0 < left {
        at = onward(test, table, at, left - left / 2);
        left /= 2;
    }
    at
}

// The bytes from which `size` intervals are left to be searched: the first of them or the last.
#[inline(always)]
#[tactic(auto, using(map_rules::specs::Halves::half_last, map_rules::specs::Halves::half_first))]
fn half<T: Test>(test: &T, table: &[u8], lo: usize, count: usize, size: usize) -> usize
    requires { (size < count) × (count ≤ size + size + 1) × (lo + count * width ≤ length table.now) }
    ensures within { result + size * width ≤ lo + count * width }
    ensures right { Halved (T.passes test.now table.now) lo count size result }
{
    if test.is_passed(table, lo + size * WIDTH) {
        lo + (count - size) * WIDTH
    } else {
        lo
    }
}

// As `narrow`; its steps are known where `size` is.
#[inline(always)]
#[tactic(auto, using(map_rules::specs::Halves::half_finds))]
fn known<T: Test>(test: &T, table: &[u8], lo: usize, count: usize, size: usize) -> usize
    requires { (size < count) × (count ≤ size + size + 1) × (lo + count * width ≤ length table.now) }
    ensures within { result ≤ lo + count * width }
    ensures right { Finds (T.passes test.now table.now) lo count result }
{
    let from = half(test, table, lo, count, size);
    narrow(test, table, from, size)
}

// As `narrow`, by known steps where there are 64 intervals or more. One arm a size: in a loop over the sizes no step's length is known,
// and a lookup takes 300 instructions in place of 190.
#[inline(always)]
fn sized<T: Test>(test: &T, table: &[u8], lo: usize, count: usize) -> usize
    requires { (count ≤ 65535) × (lo + count * width ≤ length table.now) }
    ensures within { result ≤ lo + count * width }
    ensures right { Finds (T.passes test.now table.now) lo count result }
{
    if 32768 <= count {
        known(test, table, lo, count, 32767)
    } else if 16384 <= count {
        known(test, table, lo, count, 16383)
    } else if 8192 <= count {
        known(test, table, lo, count, 8191)
    } else if 4096 <= count {
        known(test, table, lo, count, 4095)
    } else if 2048 <= count {
        known(test, table, lo, count, 2047)
    } else if 1024 <= count {
        known(test, table, lo, count, 1023)
    } else if 512 <= count {
        known(test, table, lo, count, 511)
    } else if 256 <= count {
        known(test, table, lo, count, 255)
    } else if 128 <= count {
        known(test, table, lo, count, 127)
    } else if 64 <= count {
        known(test, table, lo, count, 63)
    } else {
        narrow(test, table, lo, count)
    }
}

// As `narrow`, with a look at the first interval beforehand.
#[inline(always)]
#[tactic(auto, using(map_rules::specs::Halves::none_finds, map_rules::specs::Halves::first_finds, map_rules::specs::Halves::rest_finds))]
pub fn turn<T: Test>(test: &T, table: &[u8], lo: usize, count: usize) -> usize
    requires { (count ≤ most_room) × (lo + count * width ≤ length table.now) }
    ensures within { result ≤ lo + count * width }
    ensures right { Finds (T.passes test.now table.now) lo count result }
{
    if count == 0 || !test.is_passed(table, lo) {
        return lo;
    }
    sized(test, table, lo + WIDTH, count - 1)
}
