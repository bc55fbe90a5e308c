// Cases of texts: UTF-8 or not, and numbers.
ghost use Rattle.std.specs.Prelude.{◌≡◌, length};

// Room for the bytes of one case.
fn room() -> [u8; 512]
    ensures { 512 ≡ length result }
{
    [0; 512]
}

// A line `+ BYTES` for what is UTF-8, `- BYTES` for what is not.
pub fn utf8(text: &[u8], at: usize) -> bool {
    let sign = vectors_text::past_blanks(text, at);
    let expected = vectors_text::byte_at(text, sign) == b'+';
    let mut bytes = room();
    let word = vectors_text::bytes_at(text, vectors_text::past(text, sign), &mut bytes);
    leaves_utf8::utf8::is_utf8(&bytes[..word.count]) == expected
}

// A line `+ VALUE BYTES` for a number, `- PLACE BYTES` for what is none from that place on.
pub fn number(text: &[u8], at: usize) -> bool {
    let sign = vectors_text::past_blanks(text, at);
    let expected = vectors_text::number_at(text, vectors_text::past(text, sign));
    let mut bytes = room();
    let word = vectors_text::bytes_at(text, expected.next, &mut bytes);
    let sign = vectors_text::byte_at(text, sign);
    match leaves_text::number_text::number(&bytes[..word.count]) {
        Ok(value) => sign == b'+' && value as u64 == expected.value,
        Err(place) => sign == b'-' && place as u64 == expected.value,
    }
}
