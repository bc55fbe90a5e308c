// A record's frame (RULES, Merging records): what stands at a place of a stream's bytes, and a symbol
// mapping's parts where the bytes are exactly one record.
ghost use Rattle.std.specs.Prelude.{◌≡◌, ◌-◌, min, length};
ghost use Rattle.std.proofs.Math.Seq.{slice};
ghost use Rattle.leaves.specs.Frame.{frame_at, head_of, frame_of, read_of, mapping_start, mapping_of, mapped_of, mapped_in};

use crate::refusal::{Reason, Refusal};
use leaves_fields::fields::{u16_at, u32_at, u64_at};

// A record's least and greatest whole length.
const HEADER: u16 = 16;

const LONGEST: u16 = 1024;

// A symbol mapping's kind, where its times and its name stand.
const SYMBOL_MAPPING: u16 = 2;

const START_AT: usize = 16;

const END_AT: usize = 24;

const NAME_AT: usize = 32;

const MISSING: u64 = 18446744073709551615;

// The head of a record.
#[derive(Clone, Copy, Debug, PartialEq, Eq)]
pub struct Head {
    pub length: u16,
    pub kind: u16,
    pub instrument: u32,
    pub time: u64,
}

// How many bytes are left from a place on of the part from `from` to `to` of a buffer of `size` bytes.
fn left_of(size: u64, from: u64, to: u64, place: u64) -> u64
    ensures { result ≡ min to size - from - place }
{
    to.min(size).saturating_sub(from).saturating_sub(place)
}

// What stands at a place of the part from `from` to `to` of a buffer, whatever the three numbers are: a record, the end, or damage.
pub fn read_within(buffer: &[u8], from: u64, to: u64, place: u64) -> Result<Option<Head>, Reason>
    ensures { head_of result ≡ frame_at (slice from to buffer.now) place }
{
    let left = left_of(buffer.len() as u64, from, to, place);
    if left == 0 {
        return Ok(None);
    }
    if left < HEADER as u64 {
        return Err(Reason::Short);
    }
    let at = (from + place) as usize;
    let length = u16_at(buffer, at);
    if length < HEADER || LONGEST < length {
        return Err(Reason::BadLength);
    }
    if left < length as u64 {
        return Err(Reason::PastEnd);
    }
    Ok(Some(Head {
        length,
        kind: u16_at(buffer, at + 2),
        instrument: u32_at(buffer, at + 4),
        time: u64_at(buffer, at + 8),
    }))
}

// What stands at a place of a stream's bytes.
pub fn frame_at(part: &[u8], place: u64) -> Result<Option<Head>, Reason>
    ensures { frame_of result ≡ read_of (frame_at part.now place) }
{
    read_within(part, 0, part.len() as u64, place)
}

// What a symbol mapping asks for, its missing times replaced. The name is the bytes from `name_from` to `name_to`.
#[derive(Clone, Copy, Debug, PartialEq, Eq)]
pub struct Mapping {
    pub instrument: u32,
    pub start: u64,
    pub end: u64,
    pub name_from: usize,
    pub name_to: usize,
}

// A start that is missing is 0.
fn mapping_start(time: u64) -> u64
    ensures { result ≡ mapping_start time }
{
    if time == MISSING { 0 } else { time }
}

// What the bytes of exactly one record ask for; a record of another kind asks for nothing. An end that is missing is the greatest
// time, as it stands.
pub fn read_mapping(bytes: &[u8]) -> Result<Option<Mapping>, Refusal>
    ensures { mapping_of result ≡ mapped_of (length bytes.now) (mapped_in bytes.now) }
{
    let size = bytes.len();
    let Some(head) = read_within(bytes, 0, size as u64, 0)? else {
        return Err(Reason::Short.into());
    };
    if head.length as usize != size {
        return Err(Reason::PastEnd.into());
    }
    if head.kind != SYMBOL_MAPPING {
        return Ok(None);
    }
    if size < NAME_AT {
        return Err(Reason::ShortBody.into());
    }
    Ok(Some(Mapping {
        instrument: head.instrument,
        start: mapping_start(u64_at(bytes, START_AT)),
        end: u64_at(bytes, END_AT),
        name_from: NAME_AT,
        name_to: size,
    }))
}
