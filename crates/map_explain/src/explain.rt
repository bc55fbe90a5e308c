// Why an instrument has a symbol at a moment, or none (RULES, Requests, No. 4): two searches in a table that is in order, then at most
// three intervals are looked at. Nothing but the check is linear in the table.
ghost use Rattle.std.specs.Prelude.{◌≡◌, true, false, ℕ, ◌*◌, ◌≤◌, ◌<◌, length, MatchOption};
ghost use Rattle.leaves.specs.Refusal.{answer_with};
ghost use Rattle.map_rules.specs.Table.{interval_of};
ghost use Rattle.map_rules.specs.Memory.{width, row_at};
ghost use Rattle.map_table.specs.Interval.{row_of};
ghost use Rattle.map_explain.specs.Explain.{numbers_of, named_of, own_at, InOrder, Placed, rows_answer, explain_answer, explained_values, explained_of};

use leaves::refusal::Refusal;
use map_table::interval::Interval;

// An interval that a reason names: its number within the instrument, from 0, and what is stored.
#[derive(Clone, Copy, Debug, PartialEq, Eq)]
pub struct Named {
    pub index: u64,
    pub start: u64,
    pub end: u64,
    pub symbol: u32,
}

// Why there is a symbol, or none: in this interval; the instrument is unknown; before its first interval; after its last; between
// these two neighbours.
#[derive(Clone, Copy, Debug, PartialEq, Eq)]
pub enum Explained {
    In(Named),
    Unknown,
    Before(Named),
    After(Named),
    Between(Named, Named),
}

// An interval with its number within the instrument.
fn numbered(index: u64, x: Interval) -> Named
    ensures { named_of result ≡ numbers_of index (interval_of (row_of x)) }
{
    Named {
        index,
        start: x.start,
        end: x.end,
        symbol: x.symbol,
    }
}

// The interval at the place, where that is one of those in use, of the instrument.
fn own(table: &[u8], used: usize, place: usize, instrument: u32) -> Option<Interval>
    requires { used * width ≤ length table.now }
    ensures { MatchOption result (own_at table.now used place instrument ≡ false) (λ x.
        (own_at table.now used place instrument ≡ true) × (row_of x ≡ row_at table.now place)) }
{
    if used <= place {
        return None;
    }
    let x = map_table::interval::interval_at(table, place);
    if x.instrument == instrument {
        Some(x)
    } else {
        None
    }
}

// The reason where none of the instrument's intervals has started: these begin at `begin`.
fn not_started(table: &[u8], used: usize, begin: usize, instrument: u32) -> Explained
    requires { InOrder table.now used }
    ensures { (m end : ℕ) → Placed table.now used instrument m begin end → end ≤ begin → explained_of result ≡ rows_answer table.now used instrument m }
{
    match own(table, used, begin, instrument) {
        Some(x) => Explained::Before(numbered(0, x)),
        None => Explained::Unknown,
    }
}

// The reason where some have: these begin at `begin`, and the first that has not started, or another's, is at `end`.
fn started(
    table: &[u8],
    used: usize,
    begin: usize,
    end: usize,
    instrument: u32,
    moment: u64,
) -> Explained
    requires { Placed table.now used instrument moment begin end × (begin < end) }
    ensures { explained_of result ≡ rows_answer table.now used instrument moment }
{
    let x = map_table::interval::interval_at(table, end - 1);
    let index = (end - 1 - begin) as u64;
    let last = numbered(index, x);
    if moment < x.end {
        return Explained::In(last);
    }
    match own(table, used, end, instrument) {
        Some(y) => Explained::Between(last, numbered(index + 1, y)),
        None => Explained::After(last),
    }
}

// The reason in a table that was checked.
pub fn explain_checked(table: &[u8], used: usize, instrument: u32, moment: u64) -> Explained
    requires { InOrder table.now used }
    ensures { explained_of result ≡ rows_answer table.now used instrument moment }
{
    let begin = map_search::begin::beginning(table, used, instrument);
    let end = map_search::reach::reached(table, used, begin, instrument, moment);
    if begin < end {
        started(table, used, begin, end, instrument, moment)
    } else {
        not_started(table, used, begin, instrument)
    }
}

// Why the instrument has a symbol at the moment, or none, where so many names are known: 15, 14, else the reason.
pub fn explain(
    table: &[u8],
    used: usize,
    names: usize,
    instrument: u32,
    moment: u64,
) -> Result<Explained, Refusal>
    ensures { answer_with explained_values result ≡ explain_answer table.now used names instrument moment }
{
    map_table::table::check(table, used, names)?;
    Ok(explain_checked(table, used, instrument, moment))
}
