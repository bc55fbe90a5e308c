// Why there is a symbol in a table over time, or none, at the C door (RULES, Requests, No. 4).
ghost use Rattle.std.specs.Prelude.{◌≡◌};
ghost use Rattle.map_explain.specs.Explain.{explain_answer, explained_of};
ghost use Rattle.door_map.specs.Lent.{handed_of, numbers_in, lent, DeskExplain};

use door_answers::DONE;
use map_explain::explain::{Explained, Named};

// The reasons' numbers, as C reads them.
const IN: u32 = 1;

const UNKNOWN: u32 = 2;

const BEFORE: u32 = 3;

const AFTER: u32 = 4;

const BETWEEN: u32 = 5;

// What an explanation hands over.
#[derive(Clone, Copy, Debug, PartialEq, Eq)]
pub struct Numbers {
    pub reason: u32,
    pub index: u64,
    pub start: u64,
    pub end: u64,
    pub symbol: u32,
    pub next_start: u64,
    pub next_end: u64,
    pub next_symbol: u32,
}

// A reason's number with the interval that it names and the next one.
fn handed(reason: u32, x: Named, y: Named) -> Numbers
    ensures { result ≡ handed_of reason x y }
{
    Numbers {
        reason,
        index: x.index,
        start: x.start,
        end: x.end,
        symbol: x.symbol,
        next_start: y.start,
        next_end: y.end,
        next_symbol: y.symbol,
    }
}

// No interval.
const NONE: Named = Named {
    index: 0,
    start: 0,
    end: 0,
    symbol: 0,
};

// The reason's numbers; what it does not name is 0.
fn told(explained: Explained) -> Numbers
    ensures { result ≡ numbers_in (explained_of explained) }
{
    match explained {
        Explained::In(x) => handed(IN, x, NONE),
        Explained::Unknown => handed(UNKNOWN, NONE, NONE),
        Explained::Before(x) => handed(BEFORE, x, NONE),
        Explained::After(x) => handed(AFTER, x, NONE),
        Explained::Between(x, y) => handed(BETWEEN, x, y),
    }
}

// Why the instrument has a symbol at the moment, or none: 0, 15 or 14; the numbers become the reason's and its intervals'.
#[unsafe(no_mangle)]
pub extern "C" fn desk_explain(
    table: &[u8],
    used: usize,
    names: usize,
    instrument: u32,
    moment: u64,
    reason: &mut u32,
    index: &mut u64,
    start: &mut u64,
    end: &mut u64,
    symbol: &mut u32,
    next_start: &mut u64,
    next_end: &mut u64,
    next_symbol: &mut u32,
) -> u32
    ensures { DeskExplain (explain_answer table.now used names instrument moment) result
        (lent reason.old index.old start.old end.old symbol.old next_start.old next_end.old next_symbol.old)
        (lent reason.new index.new start.new end.new symbol.new next_start.new next_end.new next_symbol.new) }
{
    match map_explain::explain::explain(table, used, names, instrument, moment) {
        Ok(explained) => {
            let after = told(explained);
            *reason = after.reason;
            *index = after.index;
            *start = after.start;
            *end = after.end;
            *symbol = after.symbol;
            *next_start = after.next_start;
            *next_end = after.next_end;
            *next_symbol = after.next_symbol;
            DONE
        }
        Err(refusal) => refusal.number(),
    }
}
