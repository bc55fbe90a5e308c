// Sections found in place: whole length (4 bytes), kind (2), then the content.
ghost use Rattle.std.specs.Prelude.{◌≡◌, ◌≤◌, length, IfSome};
ghost use Rattle.lines.specs.Parts.{part_size, part_end};

use leaves_fields::fields::{u16_at, u32_at};

// A section's head: its whole length (4 bytes) and its kind (2).
pub const PART_HEAD: usize = 6;
// Where in the head the kind stands.
const KIND_AT: usize = 4;

// The whole length of the section of this kind at the front of the bytes, if one stands there.
pub fn part_size(bytes: &[u8], kind: u16) -> Option<usize>
    ensures whole { result ≡ part_size kind bytes.now }
    ensures within { IfSome result (λ size. (6 ≤ size) × (size ≤ length bytes.now)) }
{
    if bytes.len() < PART_HEAD {
        return None;
    }
    let size = u32_at(bytes, 0) as usize;
    if size < PART_HEAD || bytes.len() < size || u16_at(bytes, KIND_AT) != kind {
        return None;
    }
    Some(size)
}

// Where the section of this kind that stands at `at` ends, if one stands there. Its content begins behind its head.
pub fn part_end(bytes: &[u8], at: usize, kind: u16) -> Option<usize>
    requires { at ≤ length bytes.now }
    ensures whole { result ≡ part_end kind bytes.now at }
    ensures within { IfSome result (λ end. end ≤ length bytes.now) }
{
    let size = part_size(&bytes[at..], kind)?;
    Some(at + size)
}
