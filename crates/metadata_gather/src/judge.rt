// The tests of a metadata merge over both sides whole (RULES, Merging metadata): 11 for any date, 3 for any name number, 1 for any
// interval. Helpers: each asks for the words that it reads.
ghost use Rattle.std.specs.Prelude.{◌≡◌, true, ◌+◌, ◌*◌, ◌<◌, ◌≤◌, length};
ghost use Rattle.metadata_rules.specs.Metadata.{every};
ghost use Rattle.metadata_words.specs.Words.{rest};
ghost use Rattle.metadata_gather.specs.Judge.{dated, below, spaced, judged_by};

use leaves::refusal::Refusal;
use leaves_days::days::is_date;
use metadata_rules::Interval;
use metadata_words::words::interval_at;

// Whether a number was handed out: it is below the number of names.
#[tactic(auto, unfolding(crate::specs::Judge::below))]
fn is_known(x: u32, names: usize) -> bool
    ensures { result ≡ below names x }
{
    (x as usize) < names
}

// 3: whether each of `count` numbers was handed out, the first word and then each that stands `stride` words further on.
pub fn numbers_known(words: &[u32], stride: usize, count: usize, names: usize) -> bool
    requires { (0 < stride) × (count * stride ≤ length words.now) }
    ensures { result ≡ every (below names) (spaced words.now stride 0 count) }
{
    for i in 0..count {
        if !is_known(words[i * stride], names) {
            return false;
        }
    }
    true
}

// Whether start and end are dates.
#[tactic(auto, unfolding(crate::specs::Judge::dated))]
fn is_dated(x: Interval) -> bool
    ensures { result ≡ dated x }
{
    is_date(x.start) && is_date(x.end)
}

// 11, 3 or 1 of the first `count` intervals, each over all before the next; `known` says whether every other number was handed out.
pub fn judge(intervals: &[u32], count: usize, names: usize, known: bool) -> Result<(), Refusal>
    requires { 3 * count ≤ length intervals.now }
    ensures { result ≡ judged_by names known true (rest intervals.now 0 count) }
{
    let mut all_known = known;
    let mut all_forward = true;
    for i in 0..count {
        let x = interval_at(intervals, i);
        if !is_dated(x) {
            return Err(Refusal::NoDate);
        }
        all_known &= is_known(x.symbol, names);
        all_forward &= x.start <= x.end;
    }
    if !all_known {
        return Err(Refusal::UnknownSymbol);
    }
    if !all_forward {
        return Err(Refusal::Reversed);
    }
    Ok(())
}
