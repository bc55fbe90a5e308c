// A metadata that stands in scratch, laid over the lent lists.
ghost use Rattle.std.specs.Prelude.{◌≡◌};
ghost use Rattle.metadata_form.specs.Header.{lent, lent_mut, SameLoans};
ghost use Rattle.metadata_open.specs.Commit.{Commit, committed};

use metadata_form::header::{Counts, Header, total};
use metadata_form::lists::{Lists, ListsMut};
use metadata_words::over::lay_over;
use metadata_words::words::{INTERVAL_WORDS, MAPPING_WORDS};

// The lists in scratch, `counts` of each, laid over the lent ones, of which the header's counts were in use.
pub fn commit(header: Header, lists: &mut ListsMut<'_>, counts: Counts, out: Lists<'_>)
    requires { Commit header (lent_mut lists.old) counts (lent out) }
    ensures holds { lent_mut lists.new ≡ committed header (lent_mut lists.old) counts (lent out.entry) }
    ensures same_loans { SameLoans lists.old lists.new }
{
    let used = total(lists.shared().mappings, header.mappings);
    lay_over(lists.symbols, header.symbols, out.symbols, counts.symbols);
    lay_over(lists.partial, header.partial, out.partial, counts.partial);
    lay_over(
        lists.not_found,
        header.not_found,
        out.not_found,
        counts.not_found,
    );
    lay_over(
        lists.mappings,
        MAPPING_WORDS * header.mappings,
        out.mappings,
        MAPPING_WORDS * counts.mappings,
    );
    lay_over(
        lists.intervals,
        INTERVAL_WORDS * used,
        out.intervals,
        INTERVAL_WORDS * counts.intervals,
    );
}
