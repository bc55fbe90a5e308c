// A bundle taken apart into one buffer and cuts (RULES, Merging records: sections of whole length (4 bytes),
// kind (2, always 1), then one stream).
ghost use Rattle.std.specs.Prelude.{◌≡◌, ◌≤◌, length, get_or};
ghost use Rattle.leaves_limits.specs.Limits.{most_bundle};
ghost use Rattle.lines.specs.Sections.{PartedOk};

use crate::parts::{PART_HEAD, part_size};
use leaves_limits::{BUNDLE_BYTES, STREAMS};

// The kind of a section that holds a stream.
const STREAM: u16 = 1;

// A bundle taken apart: this many streams, of this many bytes in all.
#[derive(Clone, Copy, Debug, PartialEq, Eq)]
pub struct Parted {
    pub count: usize,
    pub bytes: usize,
}

// Takes a bundle apart: the streams' bytes one after another in the buffer, and where each begins and ends in the cuts. None: a bad
// bundle.
pub fn part(bundle: &[u8], buffer: &mut [u8], cuts: &mut [u64]) -> Option<Parted>
    requires { (most_bundle ≤ length buffer.old) × (257 ≤ length cuts.old) × (get_or cuts.old 0 0 ≡ 0) }
    ensures { PartedOk bundle.now buffer.new cuts.new result }
{
    if BUNDLE_BYTES < bundle.len() {
        return None;
    }
    // No `for` is plainer: the three places go on by different steps.
    let mut at = 0;
    let mut bytes = 0;
    let mut count = 0;
    while at < bundle.len() {
        if count == STREAMS {
            return None;
        }
        let size = part_size(&bundle[at..], STREAM)?;
        let end = bytes + size - PART_HEAD;
        buffer[bytes..end].copy_from_slice(&bundle[at + PART_HEAD..at + size]);
        bytes = end;
        at += size;
        count += 1;
        cuts[count] = bytes as u64;
    }
    if count == 0 {
        return None;
    }
    Some(Parted { count, bytes })
}
