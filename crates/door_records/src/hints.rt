// A stream's hint at the C door (RULES, Merging records), from its own metadata's header.
ghost use Rattle.std.specs.Prelude.{◌≡◌};
ghost use Rattle.door_answers.specs.Answers.{number_in, value_in};
ghost use Rattle.door_records.specs.Hints.{hint_answer};

use door_answers::header::header_of;
use door_answers::{BAD_MEMORY, DONE};
use records::hints::hint_of;

// The hint of a stream whose metadata has this header: 0 or 15; `hint` becomes the hint, and 15 leaves it as it was.
#[unsafe(no_mangle)]
pub extern "C" fn desk_hint_of(header: &[u64], hint: &mut u64) -> u32
    ensures value { result ≡ number_in (hint_answer header.now) }
    ensures hint_after { hint.new ≡ value_in hint.old 0 (hint_answer header.now) }
{
    let Some(h) = header_of(header) else {
        return BAD_MEMORY;
    };
    *hint = hint_of(h);
    DONE
}
