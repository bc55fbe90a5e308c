// Number text (RULES, Names, numbers, days, 7), as Rust's documentation of reading a `u32` has it: an optional
// single `+`, then one or more ASCII digits, at most 4294967295. Read from left to right, with no limit on the digits.
ghost use Rattle.std.specs.Prelude.{◌≡◌, ◌<◌, ◌≤◌, length};
ghost use Rattle.leaves_text.specs.NumberText.{reading_of, number_text, Begun, appended};

const PLUS: u8 = b'+';

// A value with one more digit; none where the byte is no digit, or the value then no `u32`.
fn append(value: u32, byte: u8) -> Option<u32>
    ensures { result ≡ appended value byte }
{
    if !byte.is_ascii_digit() {
        return None;
    }
    value.checked_mul(10)?.checked_add((byte - b'0') as u32)
}

// Where the digits begin: after the `+`, if there is one.
#[tactic(auto, using(crate::specs::NumberTextLaws::begin_plus, crate::specs::NumberTextLaws::begin_bare, crate::specs::NumberTextLaws::begin_nothing))]
fn digits_from(text: &[u8]) -> usize
    ensures { Begun text.now result }
{
    if !text.is_empty() && text[0] == PLUS {
        1
    } else {
        0
    }
}

// The number that the text says; or the place of the first byte at which no reading could go on, its length if that is its end.
pub fn number(text: &[u8]) -> Result<u32, usize>
    ensures { reading_of result ≡ number_text text.now }
{
    let from = digits_from(text);
    let digits = &text[from..];
    if digits.is_empty() {
        return Err(from);
    }
    let mut value = 0;
    for (i, byte) in digits.iter().enumerate() {
        value = append(value, *byte).ok_or(from + i)?;
    }
    Ok(value)
}
