// The hint of a stream from its metadata, as dbn's `Decoder::new` has it: before any record is read, a stream stands where its
// metadata starts.
ghost use Rattle.std.specs.Prelude.{◌≡◌};
ghost use Rattle.metadata_form.specs.Header.{header_fields};
ghost use Rattle.records.specs.Hints.{hint_of};

use metadata_form::header::Header;

// The hint of a stream whose metadata has this header.
pub fn hint_of(header: Header) -> u64
    ensures { result ≡ hint_of (header_fields header) }
{
    header.start
}
