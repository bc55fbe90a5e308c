// Cases of frames: what stands at a place of a stream, and what exactly one record asks for.
ghost use Rattle.std.specs.Prelude.{◌≡◌, length};

use leaves::frame::{Head, Mapping};
use leaves::refusal::{Reason, Refusal};

// Room for the bytes of one case.
fn room() -> [u8; 2048]
    ensures { 2048 ≡ length result }
{
    [0; 2048]
}

// A frame in numbers: the rules' number and the values that come with it, 0 where there are fewer than five.
fn of_frame(frame: Result<Option<Head>, Reason>) -> [u64; 6] {
    match frame {
        Ok(Some(head)) => [
            0,
            head.length as u64,
            head.kind as u64,
            head.instrument as u64,
            head.time,
            0,
        ],
        Ok(None) => [0; 6],
        Err(reason) => [13, reason.number(), 0, 0, 0, 0],
    }
}

// What a record asks for, in the same form. No other refusal than damage is one that is expected.
fn of_mapping(mapping: Result<Option<Mapping>, Refusal>) -> [u64; 6] {
    match mapping {
        Ok(Some(mapping)) => [
            0,
            mapping.instrument as u64,
            mapping.start,
            mapping.end,
            mapping.name_from as u64,
            mapping.name_to as u64,
        ],
        Ok(None) => [0; 6],
        Err(
            Refusal::Damaged {
                stream,
                place,
                reason,
            },
        ) => [13, stream, place, reason.number(), 0, 0],
        Err(_) => [0, 1, 1, 1, 1, 1],
    }
}

// The answer that a line expects, and the place after it.
#[derive(Clone, Copy)]
struct Expected {
    answer: [u64; 6],
    next: usize,
}

fn expected_at(text: &[u8], at: usize) -> Expected {
    let mut answer = [0; 6];
    let mut next = at;
    for number in answer.iter_mut() {
        let token = vectors_text::number_at(text, next);
        *number = token.value;
        next = token.next;
    }
    Expected { answer, next }
}

// A line `PLACE NUMBER VALUES BYTES`.
pub fn frame(text: &[u8], at: usize) -> bool {
    let place = vectors_text::number_at(text, at);
    let expected = expected_at(text, place.next);
    let mut bytes = room();
    let word = vectors_text::bytes_at(text, expected.next, &mut bytes);
    of_frame(leaves::frame::frame_at(&bytes[..word.count], place.value)) == expected.answer
}

// A line `NUMBER VALUES BYTES`.
pub fn mapping(text: &[u8], at: usize) -> bool {
    let expected = expected_at(text, at);
    let mut bytes = room();
    let word = vectors_text::bytes_at(text, expected.next, &mut bytes);
    of_mapping(leaves::frame::read_mapping(&bytes[..word.count])) == expected.answer
}
