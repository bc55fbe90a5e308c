// A metadata's header, the test of its memory (15), the six fields compared (6), and the fields of a merge.
ghost use Rattle.std.specs.Prelude.{◌≡◌, ◌*◌, ◌≤◌, length};
ghost use Rattle.leaves_limits.specs.Limits.{most_mappings};
ghost use Rattle.metadata_rules.specs.Words.{before};
ghost use Rattle.metadata_rules.specs.Metadata.{same_schema, differs_at};
ghost use Rattle.metadata_form.specs.Header.{header_fields, set_fits, lengths_of, lent, lengths_fit, metadata_fits, field_at, merged_header, counted_header, outcome_fits};

use crate::lists::Lists;
use leaves::refusal::Field;
use leaves_limits::{ENTRIES, INTERVALS, MAPPINGS};
use metadata_words::words::{INTERVAL_WORDS, MAPPING_WORDS, count_at};

// What a metadata says besides its lists, and how many places of each list are in use. The dataset is a name's number; an end
// or limit of 0 is a missing one; schema 65535 and stype_in 255 mean none: DBN's own numbers, as C hands them over.
#[derive(Clone, Copy, Debug, PartialEq, Eq)]
pub struct Header {
    pub version: u8,
    pub dataset: u32,
    pub schema: u16,
    pub start: u64,
    pub end: u64,
    pub limit: u64,
    pub stype_in: u8,
    pub stype_out: u8,
    pub ts_out: bool,
    pub symbol_cstr_len: u64,
    pub symbols: usize,
    pub partial: usize,
    pub not_found: usize,
    pub mappings: usize,
}

// The lengths of the five lent lists, in words.
#[derive(Clone, Copy, Debug, PartialEq, Eq)]
pub struct Lengths {
    pub symbols: usize,
    pub partial: usize,
    pub not_found: usize,
    pub mappings: usize,
    pub intervals: usize,
}

// How many entries, mappings and intervals an outcome has.
#[derive(Clone, Copy, Debug, PartialEq, Eq)]
pub struct Counts {
    pub symbols: usize,
    pub partial: usize,
    pub not_found: usize,
    pub mappings: usize,
    pub intervals: usize,
}

const NO_SCHEMA: u16 = 65535;

const NO_LIMIT: u64 = 0;

// Whether a set's list is within the limit, and what is in use within the list.
#[tactic(auto, unfolding(crate::specs::Header::set_fits))]
fn set_fits(used: usize, lent: usize) -> bool
    ensures { result ≡ set_fits used lent }
{
    lent <= ENTRIES && used <= lent
}

// Whether each list is within its limit and made of whole mappings and intervals, and what is in use within each.
#[tactic(auto, unfolding(crate::specs::Header::lengths_fit))]
fn lengths_fit(header: Header, lengths: Lengths) -> bool
    ensures { result ≡ lengths_fit header lengths }
{
    let symbols = set_fits(header.symbols, lengths.symbols);
    let partial = set_fits(header.partial, lengths.partial);
    let not_found = set_fits(header.not_found, lengths.not_found);
    let maps = lengths.mappings / MAPPING_WORDS;
    let maps_fit = lengths.mappings % MAPPING_WORDS == 0
        && maps <= MAPPINGS
        && header.mappings <= maps;
    let spans_fit = lengths.intervals % INTERVAL_WORDS == 0
        && lengths.intervals / INTERVAL_WORDS <= INTERVALS;
    symbols && partial && not_found && maps_fit && spans_fit
}

// How many intervals the first `count` mappings have together.
pub fn total(mappings: &[u32], count: usize) -> usize
    requires { (2 * count ≤ length mappings.now) × (count ≤ most_mappings) }
    ensures { result ≡ before mappings.now count }
{
    let mut sum = 0;
    for i in 0..count {
        sum += count_at(mappings, i);
    }
    sum
}

// Whether a metadata's memory is of the form, by the lengths of its lists; where it is not, 15.
pub fn form_fits(header: Header, lengths: Lengths, mappings: &[u32]) -> bool
    requires { lengths.mappings ≡ length mappings.now }
    ensures { result ≡ metadata_fits header lengths mappings.now }
{
    if !lengths_fit(header, lengths) {
        return false;
    }
    total(mappings, header.mappings) <= lengths.intervals / INTERVAL_WORDS
}

// The same of the lists themselves.
pub fn metadata_fits(header: Header, lists: Lists<'_>) -> bool
    ensures { result ≡ metadata_fits header (lengths_of (lent lists.entry)) lists.entry.mappings.now }
{
    form_fits(header, lists.lengths(), lists.mappings)
}

// The first of the six fields that differs.
#[tactic(auto, unfolding(metadata_rules::specs::Metadata::differs_at, metadata_rules::specs::Metadata::same_bool))]
pub fn differs(header: Header, added: Header) -> Option<Field>
    ensures { field_at result ≡ differs_at (header_fields header) (header_fields added) }
{
    if header.version != added.version {
        return Some(Field::Version);
    }
    if header.dataset != added.dataset {
        return Some(Field::Dataset);
    }
    if header.stype_in != added.stype_in {
        return Some(Field::StypeIn);
    }
    if header.stype_out != added.stype_out {
        return Some(Field::StypeOut);
    }
    if header.ts_out != added.ts_out {
        return Some(Field::TsOut);
    }
    if header.symbol_cstr_len != added.symbol_cstr_len {
        return Some(Field::SymbolCstrLen);
    }
    None
}

// An unequal schema becomes none.
#[tactic(auto, unfolding(metadata_rules::specs::Metadata::same_schema))]
fn same_schema(a: u16, b: u16) -> u16
    ensures { result ≡ same_schema a b }
{
    if a == b { a } else { NO_SCHEMA }
}

// The header of a merge: start the lesser, end the greater, no limit, and the outcome's counts.
pub fn merged_header(header: Header, added: Header, counts: Counts) -> Header
    ensures { result ≡ merged_header header added counts }
{
    Header {
        schema: same_schema(header.schema, added.schema),
        start: header.start.min(added.start),
        end: header.end.max(added.end),
        limit: NO_LIMIT,
        ..counted(header, counts)
    }
}

// The same header with the outcome's counts.
pub fn counted(header: Header, counts: Counts) -> Header
    ensures { result ≡ counted_header header counts }
{
    Header {
        symbols: counts.symbols,
        partial: counts.partial,
        not_found: counts.not_found,
        mappings: counts.mappings,
        ..header
    }
}

// Whether an outcome fits the room; where it does not, 2.
#[tactic(auto, unfolding(crate::specs::Header::outcome_fits))]
pub fn outcome_fits(counts: Counts, lengths: Lengths) -> bool
    ensures { result ≡ outcome_fits counts lengths }
{
    counts.symbols <= lengths.symbols
        && counts.partial <= lengths.partial
        && counts.not_found <= lengths.not_found
        && counts.mappings <= lengths.mappings / MAPPING_WORDS
        && counts.intervals <= lengths.intervals / INTERVAL_WORDS
}
