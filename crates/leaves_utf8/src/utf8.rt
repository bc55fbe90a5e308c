// UTF-8 as RFC 3629, section 4, defines it: one function a production, then a walk from one UTF8-char to the next.
ghost use Rattle.std.specs.Prelude.{◌≡◌, true, ◌+◌, ◌<◌, ◌≤◌, length};
ghost use Rattle.std.proofs.Math.Seq.{slice};
ghost use Rattle.leaves_utf8.specs.Utf8.{is_tail, utf8_1, utf8_2, begins_3, utf8_3, begins_4, utf8_4, is_utf8, Stepped, Upto};

// RFC 3629, 4: UTF8-tail.
#[tactic(auto, unfolding(crate::specs::Utf8::within))]
fn is_tail(x: u8) -> bool
    ensures { result ≡ is_tail x }
{
    matches!(x, 0x80..=0xBF)
}

// RFC 3629, 4: UTF8-1.
#[tactic(auto, unfolding(crate::specs::Utf8::within))]
fn is_1(a: u8) -> bool
    ensures { result ≡ utf8_1 a }
{
    matches!(a, 0x00..=0x7F)
}

// RFC 3629, 4: UTF8-2.
#[tactic(auto, unfolding(crate::specs::Utf8::utf8_2, crate::specs::Utf8::within))]
fn is_2(a: u8, b: u8) -> bool
    ensures { result ≡ utf8_2 a b }
{
    matches!(a, 0xC2..=0xDF) && is_tail(b)
}

// RFC 3629, 4: UTF8-3, its first two bytes: E0 has a higher least second one, ED a lower greatest one.
#[tactic(auto, unfolding(crate::specs::Utf8::begins_3, crate::specs::Utf8::within))]
fn begins_3(a: u8, b: u8) -> bool
    ensures { result ≡ begins_3 a b }
{
    match a {
        0xE0 => matches!(b, 0xA0..=0xBF),
        0xED => matches!(b, 0x80..=0x9F),
        0xE1..=0xEF => is_tail(b),
        _ => false,
    }
}

// RFC 3629, 4: UTF8-3.
fn is_3(a: u8, b: u8, c: u8) -> bool
    ensures { result ≡ utf8_3 a b c }
{
    begins_3(a, b) && is_tail(c)
}

// RFC 3629, 4: UTF8-4, its first two bytes: F0 has a higher least second one, F4 a lower greatest one.
#[tactic(auto, unfolding(crate::specs::Utf8::begins_4, crate::specs::Utf8::within))]
fn begins_4(a: u8, b: u8) -> bool
    ensures { result ≡ begins_4 a b }
{
    match a {
        0xF0 => matches!(b, 0x90..=0xBF),
        0xF4 => matches!(b, 0x80..=0x8F),
        0xF1..=0xF3 => is_tail(b),
        _ => false,
    }
}

// RFC 3629, 4: UTF8-4.
fn is_4(a: u8, b: u8, c: u8, d: u8) -> bool
    ensures { result ≡ utf8_4 a b c d }
{
    begins_4(a, b) && is_tail(c) && is_tail(d)
}

// How many bytes the UTF8-char at `at` takes; 0 where none stands there.
#[tactic(auto, using(crate::specs::Utf8Laws::step_1, crate::specs::Utf8Laws::step_2, crate::specs::Utf8Laws::step_3, crate::specs::Utf8Laws::step_4, crate::specs::Utf8Laws::none_1, crate::specs::Utf8Laws::none_2, crate::specs::Utf8Laws::none_3, crate::specs::Utf8Laws::none_4))]
fn char_len(text: &[u8], at: usize) -> usize
    requires { at < length text.now }
    ensures { Stepped text.now at (length text.now) result }
{
    let left = text.len() - at;
    let a = text[at];
    if is_1(a) {
        return 1;
    }
    if left < 2 {
        return 0;
    }
    let b = text[at + 1];
    if is_2(a, b) {
        return 2;
    }
    if left < 3 {
        return 0;
    }
    let c = text[at + 2];
    if is_3(a, b, c) {
        return 3;
    }
    if left < 4 {
        return 0;
    }
    let d = text[at + 3];
    if is_4(a, b, c, d) { 4 } else { 0 }
}

// A byte that none of the text is above.
fn greatest(text: &[u8]) -> u8
    ensures { Upto text.now 0 (length text.now) result }
{
    let mut most: u8 = 0;
    for x in text {
        if most < *x {
            most = *x;
        }
    }
    most
}

// Whether the text is UTF8-1 alone, which the greatest of its bytes tells.
pub fn is_plain(text: &[u8]) -> bool
    ensures { result ≡ true → Upto text.now 0 (length text.now) 0x7F }
{
    greatest(text) <= 0x7F
}

// Whether the bytes from `at` on are UTF-8, one UTF8-char after the other.
fn walk_end(text: &[u8], at: usize) -> bool
    requires { at ≤ length text.now }
    ensures { result ≡ is_utf8 (slice at (length text.now) text.now) }
{
    let mut at = at;
    while at < text.len() {
        let n = char_len(text, at);
        if n == 0 {
            return false;
        }
        at += n;
    }
    true
}

// The same of the whole text: as long as four bytes are left, each UTF8-char is known by its first byte.
fn walk(text: &[u8]) -> bool
    ensures { result ≡ is_utf8 text.now }
{
    let mut at = 0;
    while at + 4 <= text.len() {
        let a = text[at];
        if a < 0x80 {
            at += 1;
        } else if a < 0xE0 {
            if a < 0xC2 || !is_tail(text[at + 1]) {
                return false;
            }
            at += 2;
        } else if a < 0xF0 {
            if !is_3(a, text[at + 1], text[at + 2]) {
                return false;
            }
            at += 3;
        } else {
            if !is_4(a, text[at + 1], text[at + 2], text[at + 3]) {
                return false;
            }
            at += 4;
        }
    }
    walk_end(text, at)
}

// Whether the text is UTF-8. Most texts are UTF8-1 alone, and begin so.
pub fn is_utf8(text: &[u8]) -> bool
    ensures { result ≡ is_utf8 text.now }
{
    if 4 <= text.len() && text[0] < 0x80 && is_plain(text) {
        return true;
    }
    walk(text)
}
