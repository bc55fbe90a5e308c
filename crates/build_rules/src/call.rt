// What both build calls share (RULES, The map over time): the test of the lent memory, and what a refusal leaves.
ghost use Rattle.std.specs.Prelude.{◌≡◌, length, IfOk};
ghost use Rattle.theory.specs.Answer.{no_values};
ghost use Rattle.leaves.specs.Refusal.{answer_with};
ghost use Rattle.leaves_names.specs.Names.{well_formed};
ghost use Rattle.metadata_form.specs.Header.{lengths_of, lent};
ghost use Rattle.build_rules.specs.Call.{build_fits, judged, settled};

use leaves::refusal::Refusal;
use leaves_names::names::{NameList, Names, list_fits};
use metadata_form::header::{Header, Lengths, form_fits};
use metadata_form::lists::Lists;

// Whether the lent memory of table, metadata and list is of its form, by the table's own test; where it is not, 15.
#[tactic(auto, unfolding(crate::specs::Call::build_fits))]
pub fn build_fits(
    table: bool,
    header: Header,
    lengths: Lengths,
    mappings: &[u32],
    bytes: usize,
    places: usize,
    names: usize,
    name_bytes: usize,
) -> bool
    requires { lengths.mappings ≡ length mappings.now }
    ensures { result ≡ build_fits table header lengths mappings.now bytes places names name_bytes }
{
    table && form_fits(header, lengths, mappings) && list_fits(bytes, places, names, name_bytes)
}

// The checked names of a build, where the lent memory of table, metadata and list is of its form, by the table's own test: 15, then 14.
#[tactic(auto, using(crate::specs::CallLaws::judging))]
#[inline(always)]
pub fn lent_names<'a>(
    table: bool,
    header: Header,
    lists: Lists<'_>,
    list: NameList<'a>,
) -> Result<Names<'a>, Refusal>
    ensures answered { answer_with no_values result ≡ judged
        (build_fits table header (lengths_of (lent lists.entry)) lists.entry.mappings.now (length list.entry.bytes.now)
        (length list.entry.ends.now) list.entry.names list.entry.name_bytes)
        (well_formed list.entry.bytes.now list.entry.ends.now list.entry.names list.entry.name_bytes) }
    ensures same { IfOk result (λ names. names.list ≡ list.entry) }
{
    if !build_fits(
        table,
        header,
        lists.lengths(),
        lists.mappings,
        list.bytes.len(),
        list.ends.len(),
        list.names,
        list.name_bytes,
    ) {
        return Err(Refusal::BadMemory);
    }
    list.check()
}

// What a build came to. A refused one leaves 0 in every place.
pub fn settle(table: &mut [u8], laid: Result<usize, Refusal>) -> Result<usize, Refusal>
    ensures same { result ≡ laid }
    ensures memory { table.new ≡ settled laid table.old }
{
    if laid.is_err() {
        table.fill(0);
    }
    laid
}
