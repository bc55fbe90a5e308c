// Merging one more metadata into a gathered one (RULES, Merging metadata). A metadata is a header by value and five lent lists
// of words, as `metadata_open` has it.
ghost use Rattle.std.specs.Prelude.{◌≡◌};
ghost use Rattle.metadata_form.specs.Header.{lent, lent_mut, SameLoans};
ghost use Rattle.metadata_merge.specs.Merger.{all_fit, Agreed, Merge};

use crate::outcome::outcome;
use leaves::refusal::Refusal;
use leaves_limits::{ENTRIES, INTERVALS, MAPPINGS, NAMES};
use metadata_form::header::{Header, differs, merged_header, metadata_fits};
use metadata_form::lists::{Lists, ListsMut};
use metadata_open::commit::commit;
use metadata_words::words::{INTERVAL_WORDS, MAPPING_WORDS};

// Scratch for two metadata at the limits: entries of a set, words of mappings and of intervals.
const BOTH_ENTRIES: usize = 2 * ENTRIES;

const BOTH_MAPPING_WORDS: usize = 2 * MAPPINGS * MAPPING_WORDS;

const BOTH_INTERVAL_WORDS: usize = 2 * INTERVALS * INTERVAL_WORDS;

// Whether the number of names and both sides' memory are of the form.
#[tactic(auto, unfolding(crate::specs::Merger::both_fit))]
fn both_fit(
    names: usize,
    header: Header,
    lists: Lists<'_>,
    added: Header,
    added_lists: Lists<'_>,
) -> bool
    ensures { result ≡ all_fit names header (lent lists.entry) added (lent added_lists.entry) }
{
    names <= NAMES && metadata_fits(header, lists) && metadata_fits(added, added_lists)
}

// The merge of two metadata of the form whose six fields agree.
fn merge_agreed(
    names: usize,
    header: Header,
    lists: &mut ListsMut<'_>,
    added: Header,
    added_lists: Lists<'_>,
) -> Result<Header, Refusal>
    requires { Agreed names header (lent_mut lists.old) added (lent added_lists) }
    ensures merges { Merge names header (lent_mut lists.old) added (lent added_lists.entry) result (lent_mut lists.new) }
    ensures same_loans { SameLoans lists.old lists.new }
{
    let mut symbols = [0u32; BOTH_ENTRIES];
    let mut partial = [0u32; BOTH_ENTRIES];
    let mut not_found = [0u32; BOTH_ENTRIES];
    let mut mappings = [0u32; BOTH_MAPPING_WORDS];
    let mut intervals = [0u32; BOTH_INTERVAL_WORDS];
    let mut out = ListsMut {
        symbols: &mut symbols,
        partial: &mut partial,
        not_found: &mut not_found,
        mappings: &mut mappings,
        intervals: &mut intervals,
    };
    let counts = outcome(names, header, lists.shared(), added, added_lists, &mut out)?;
    commit(header, lists, counts, out.shared());
    Ok(merged_header(header, added, counts))
}

// One more metadata is merged into a gathered one, which loses its repeats first where it was never opened. `names` is how many
// names were handed out. A refused merge changes nothing. Answers the header of both together, or 15, 6, 11, 3, 1, 7, 2.
pub fn merge(
    names: usize,
    header: Header,
    lists: &mut ListsMut<'_>,
    added: Header,
    added_lists: Lists<'_>,
) -> Result<Header, Refusal>
    ensures merges { Merge names header (lent_mut lists.old) added (lent added_lists.entry) result (lent_mut lists.new) }
    ensures same_loans { SameLoans lists.old lists.new }
{
    if !both_fit(names, header, lists.shared(), added, added_lists) {
        return Err(Refusal::BadMemory);
    }
    if let Some(field) = differs(header, added) {
        return Err(Refusal::Differ(field));
    }
    merge_agreed(names, header, lists, added, added_lists)
}
