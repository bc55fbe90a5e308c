// Number text and UTF-8 at the C door (RULES, Names, numbers, days).
ghost use Rattle.std.specs.Prelude.{◌≡◌};
ghost use Rattle.leaves_text.specs.NumberText.{number_text};
ghost use Rattle.leaves_utf8.specs.Utf8.{is_utf8};
ghost use Rattle.door_answers.specs.Answers.{number_in, value_in, utf8_answer};

use door_answers::DONE;
use leaves::refusal::Refusal;

// The number that a text says: 0 or 8.
#[unsafe(no_mangle)]
pub extern "C" fn desk_number_text(text: &[u8], value: &mut u32) -> u32
    ensures value { result ≡ number_in (number_text text.now) }
    ensures value_after { value.new ≡ value_in value.old 0 (number_text text.now) }
{
    match leaves_text::number_text::number(text) {
        Ok(n) => {
            *value = n;
            DONE
        }
        Err(_) => Refusal::NotNumber.number(),
    }
}

// Whether a text of any length is UTF-8: 0 or 4.
#[unsafe(no_mangle)]
pub extern "C" fn desk_utf8(text: &[u8]) -> u32
    ensures { result ≡ number_in (utf8_answer (is_utf8 text.now)) }
{
    if leaves_utf8::utf8::is_utf8(text) {
        DONE
    } else {
        Refusal::BadName.number()
    }
}
