// Lookups in the table over time (RULES, The map over time): the hinted interval of the instrument, the following one, then the last
// with start <= moment. No step is linear in the table.
ghost use Rattle.std.specs.Prelude.{◌≡◌, true, not, ◌||◌, [], ◌∷◌, ℕ, ◌*◌, ◌+◌, ◌≤◌, length, T};
ghost use Rattle.leaves_limits.specs.Limits.{most_room};
ghost use Rattle.theory.specs.Answer.{answer};
ghost use Rattle.map_rules.specs.Table.{Ordered, ordered};
ghost use Rattle.map_rules.specs.Lookup.{lookup_rows};
ghost use Rattle.map_rules.specs.Memory.{same_value, width, row_at, rows, table_fits};
ghost use Rattle.map_rules.specs.Halves.{Probe};
ghost use Rattle.map_rules.specs.Looks.{number_in, covers_at, Begun, last, Tells, lookup_answer, lookup_hint};
ghost use Rattle.map_look.specs.Lookup.{seen_of, looked_of};

use leaves::refusal::Refusal;
use leaves_limits::ROOM;
use map_table::interval::WIDTH;

// No interval has this number or a higher one: a table's room.
const HINT_LIMIT: u64 = ROOM as u64;

// What a lookup finds, the symbol or none, and the new hint; a refusal leaves the hint.
#[derive(Clone, Copy, Debug, PartialEq, Eq)]
pub struct Looked {
    pub found: Result<Option<u32>, Refusal>,
    pub hint: u64,
}

// The same of a table, where nothing is refused.
#[derive(Clone, Copy)]
struct Seen {
    symbol: Option<u32>,
    hint: u64,
}

// Whether the interval in the bytes from `at` on is one of those in use, of the instrument, with start <= moment < end.
#[tactic(auto, using(crate::proofs::Probes::probes))]
fn covers(table: &[u8], used: usize, at: usize, instrument: u32, moment: u64) -> bool
    requires { (used * width ≤ length table.now) × (used ≤ most_room) × (at ≤ (used + most_room) * width) }
    ensures within { result ≡ true → at + width ≤ used * width }
    ensures right { Probe (covers_at table.now used instrument moment) at result }
{
    if used * WIDTH < at + WIDTH {
        return false;
    }
    let x = map_table::interval::interval_from(table, at);
    x.instrument == instrument && x.start <= moment && moment < x.end
}

// The symbol of the interval in the bytes from `at` on, and this hint.
fn seen_at(table: &[u8], at: usize, hint: u64) -> Seen
    requires { at + width ≤ length table.now }
    ensures { ((k : ℕ) → at ≡ k * width → seen_of result ≡ answer 0 (hint ∷ (row_at table.now k).value ∷ [])) × (result.hint ≡ hint) }
{
    let x = map_table::interval::interval_from(table, at);
    Seen {
        symbol: Some(x.symbol),
        hint,
    }
}

// The last interval of the instrument with start <= moment, where those of the instrument begin at the bytes `begin`; with none the
// hint stays.
fn last_started(
    table: &[u8],
    used: usize,
    begin: usize,
    instrument: u32,
    moment: u64,
    hint: u64,
) -> Seen
    requires { (used * width ≤ length table.now) × (used ≤ most_room) × (begin ≤ used * width) }
    ensures { (g : ℕ) → begin ≡ g * width → Ordered (rows table.now used) → Begun table.now used instrument g 0 →
        Tells (last table.now used instrument moment hint) (seen_of result) result.hint }
{
    let end = map_search::reach::beyond(table, used, begin, instrument, moment);
    if end < begin + WIDTH {
        return Seen { symbol: None, hint };
    }
    let last = map_table::interval::interval_from(table, end - WIDTH);
    let arrived = ((end - begin) / WIDTH - 1) as u64;
    let symbol = if moment < last.end {
        Some(last.symbol)
    } else {
        None
    };
    Seen {
        symbol,
        hint: arrived,
    }
}

// A lookup in memory that is a table: the hinted interval, the following one, then the last with start <= moment.
fn look_up(table: &[u8], used: usize, instrument: u32, moment: u64, hint: u64) -> Seen
    requires { (used * width ≤ length table.now) × (used ≤ most_room) }
    ensures { Ordered (rows table.now used) → Tells (lookup_rows (rows table.now used) instrument moment hint) (seen_of result) result.hint }
{
    let begin = map_search::begin::turn(table, 0, used, instrument);
    if hint < HINT_LIMIT {
        let at = begin + hint as usize * WIDTH;
        if covers(table, used, at, instrument, moment) {
            return seen_at(table, at, hint);
        }
        if covers(table, used, at + WIDTH, instrument, moment) {
            return seen_at(table, at + WIDTH, hint + 1);
        }
    }
    last_started(table, used, begin, instrument, moment, hint)
}

// The symbol of the instrument at the moment, with any hint, and the new hint: 15 only. On a table that is not in order the
// answer may be any symbol or nothing.
#[tactic(auto, using(map_rules::specs::Looks::table_holds, map_rules::specs::Looks::table_limit))]
pub fn get_for_ts(table: &[u8], used: usize, instrument: u32, moment: u64, hint: u64) -> Looked
    ensures right { T (not (table_fits (length table.now) used) || ordered same_value (rows table.now used)) →
        (looked_of result ≡ lookup_answer table.now used instrument moment hint) × (result.hint ≡ lookup_hint table.now used instrument moment hint) }
    ensures accepted { table_fits (length table.now) used ≡ true → number_in (looked_of result) ≡ 0 }
{
    if !map_table::table::table_fits(table.len(), used) {
        return Looked {
            found: Err(Refusal::BadMemory),
            hint,
        };
    }
    let seen = look_up(table, used, instrument, moment, hint);
    Looked {
        found: Ok(seen.symbol),
        hint: seen.hint,
    }
}
