// The outcome of a merge in scratch, or its refusal.
ghost use Rattle.std.specs.Prelude.{◌≡◌};
ghost use Rattle.metadata_form.specs.Header.{lent, lent_mut, SameLoans};
ghost use Rattle.metadata_merge.specs.Outcome.{rest_of};
ghost use Rattle.metadata_merge.specs.OutcomeCalls.{Plannable, Outcomes};

use leaves::refusal::Refusal;
use metadata_form::header::{Counts, Header, outcome_fits};
use metadata_form::lists::{Lists, ListsMut};
use metadata_gather::sets::unite;
use metadata_plan::plan::plan;
use metadata_words::words::Mappings;

// Whether the name numbers besides the mappings' were handed out, of both sides.
#[tactic(auto, unfolding(crate::specs::Outcome::rest_of))]
fn rest_known(
    names: usize,
    header: Header,
    added: Header,
    symbols_known: bool,
    partial_known: bool,
    not_found_known: bool,
) -> bool
    ensures { result ≡ rest_of names header added symbols_known partial_known not_found_known }
{
    (header.dataset as usize) < names
        && (added.dataset as usize) < names
        && symbols_known
        && partial_known
        && not_found_known
}

// The outcome of a merge whose six fields agree: its lists stand in `out`, so many of each, or it is refused.
pub fn outcome(
    names: usize,
    header: Header,
    lists: Lists<'_>,
    added: Header,
    added_lists: Lists<'_>,
    out: &mut ListsMut<'_>,
) -> Result<Counts, Refusal>
    requires { Plannable names header (lent lists) added (lent added_lists) (lent_mut out.old) }
    ensures outcomes { Outcomes names header (lent lists.entry) added (lent added_lists.entry) result (lent_mut out.new) }
    ensures same_loans { SameLoans out.old out.new }
{
    let symbols = unite(
        &lists.symbols[..header.symbols],
        &added_lists.symbols[..added.symbols],
        names,
        out.symbols,
    );
    let partial = unite(
        &lists.partial[..header.partial],
        &added_lists.partial[..added.partial],
        names,
        out.partial,
    );
    let not_found = unite(
        &lists.not_found[..header.not_found],
        &added_lists.not_found[..added.not_found],
        names,
        out.not_found,
    );
    let rest = rest_known(
        names,
        header,
        added,
        symbols.known,
        partial.known,
        not_found.known,
    );
    let left = Mappings {
        words: lists.mappings,
        count: header.mappings,
        intervals: lists.intervals,
    };
    let right = Mappings {
        words: added_lists.mappings,
        count: added.mappings,
        intervals: added_lists.intervals,
    };
    let laid = plan(left, right, names, rest, out.mappings, out.intervals)?;
    let counts = Counts {
        symbols: symbols.count,
        partial: partial.count,
        not_found: not_found.count,
        mappings: laid.mappings,
        intervals: laid.intervals,
    };
    if !outcome_fits(counts, lists.lengths()) {
        return Err(Refusal::NoRoom);
    }
    Ok(counts)
}
