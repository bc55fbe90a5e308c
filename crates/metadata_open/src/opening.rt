// Opening a first metadata, and finishing (RULES, Merging metadata). A metadata is a header by value and five lent lists of
// words: symbols, partial, not_found (a word an entry), mappings (two words each: name, number of intervals) and intervals (three
// words each: start date, end date, symbol), those of the mappings one after the other.
ghost use Rattle.std.specs.Prelude.{◌≡◌};
ghost use Rattle.metadata_rules.specs.Metadata.{opened};
ghost use Rattle.metadata_form.specs.Header.{lent, lent_mut, SameLoans, metadata_of, numbers_of};
ghost use Rattle.leaves.specs.Refusal.{answer_with};
ghost use Rattle.metadata_open.specs.Commit.{StandsIn};
ghost use Rattle.metadata_open.specs.Opening.{Openable, Open, finish_answer};

use crate::commit::commit;
use leaves::refusal::Refusal;
use leaves_limits::{ENTRIES, INTERVALS, MAPPINGS};
use metadata_form::header::{Counts, Header, counted, metadata_fits};
use metadata_form::lists::{Lists, ListsMut};
use metadata_gather::sets::alone;
use metadata_gather::sides::lose_repeats;
use metadata_words::words::{INTERVAL_WORDS, MAPPING_WORDS, Mappings};

// Scratch for one metadata at the limits: words of its mappings and of its intervals.
const WORDS_OF_MAPPINGS: usize = MAPPINGS * MAPPING_WORDS;

const WORDS_OF_INTERVALS: usize = INTERVALS * INTERVAL_WORDS;

// A first metadata without its repeats in `out`; answers how many of each.
fn without_repeats(header: Header, lists: Lists<'_>, out: &mut ListsMut<'_>) -> Counts
    requires { Openable header (lent lists) (lent_mut out.old) }
    ensures stands { StandsIn (opened (metadata_of header (lent lists.entry))) result (lent_mut out.new) }
    ensures same_loans { SameLoans out.old out.new }
{
    let symbols = alone(&lists.symbols[..header.symbols], out.symbols);
    let partial = alone(&lists.partial[..header.partial], out.partial);
    let not_found = alone(&lists.not_found[..header.not_found], out.not_found);
    let mappings = Mappings {
        words: lists.mappings,
        count: header.mappings,
        intervals: lists.intervals,
    };
    let laid = lose_repeats(mappings, out.mappings, out.intervals);
    Counts {
        symbols,
        partial,
        not_found,
        mappings: laid.mappings,
        intervals: laid.intervals,
    }
}

// The first metadata loses its repeats: equal entries of a set once, and of two mappings with one name the last, at the place
// of the first. Places that are freed hold 0. Answers the header with the counts that are left, or 15.
pub fn open(header: Header, lists: &mut ListsMut<'_>) -> Result<Header, Refusal>
    ensures opens { Open header (lent_mut lists.old) result (lent_mut lists.new) }
    ensures same_loans { SameLoans lists.old lists.new }
{
    if !metadata_fits(header, lists.shared()) {
        return Err(Refusal::BadMemory);
    }
    let mut symbols = [0u32; ENTRIES];
    let mut partial = [0u32; ENTRIES];
    let mut not_found = [0u32; ENTRIES];
    let mut mappings = [0u32; WORDS_OF_MAPPINGS];
    let mut intervals = [0u32; WORDS_OF_INTERVALS];
    let mut out = ListsMut {
        symbols: &mut symbols,
        partial: &mut partial,
        not_found: &mut not_found,
        mappings: &mut mappings,
        intervals: &mut intervals,
    };
    let counts = without_repeats(header, lists.shared(), &mut out);
    commit(header, lists, counts, out.shared());
    Ok(counted(header, counts))
}

// The gathered metadata is finished: it stays as it is. Answers its header, or 15.
pub fn finish(header: Header, lists: Lists<'_>) -> Result<Header, Refusal>
    ensures { answer_with numbers_of result ≡ finish_answer header (lent lists.entry) }
{
    if !metadata_fits(header, lists) {
        return Err(Refusal::BadMemory);
    }
    Ok(header)
}
