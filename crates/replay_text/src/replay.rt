// The whole text of a bundle's replay (RULES, Merging records), laid in lent bytes.
ghost use Rattle.std.specs.Prelude.{◌≡◌, ◌+◌, ◌≤◌, length, get_or};
ghost use Rattle.leaves_limits.specs.Limits.{most_bundle, most_streams};
ghost use Rattle.lines.specs.Lines.{Lays};
ghost use Rattle.theory.specs.Answer.{one_value};
ghost use Rattle.leaves.specs.Refusal.{answer_with};
ghost use Rattle.replay_text.specs.Replay.{replay_text, replay_answer, replay_laid};

use crate::telling::tell_streams;
use leaves::refusal::Refusal;
use lines::lines::word;
use lines::sections::part;
use records::engine::{Engine, Heap};

// The most lines a replay has: a record takes 16 of 60,000 bytes at least, each of 256 streams is reported damaged once at most, and
// the end has a line.
const LINES: usize = 4007;

// The most bytes a line has: three numbers of 20 digits, two blanks and the line's end.
const LINE: usize = 63;

// The bytes that every replay's text fits.
pub const TEXT_ROOM: usize = LINES * LINE;

// Takes a bundle apart and writes its replay, or only the line that says that it is bad.
fn write_replay<E: Engine>(
    bundle: &[u8],
    buffer: &mut [u8],
    cuts: &mut [u64],
    text: &mut [u8],
) -> usize
    requires { (most_bundle ≤ length buffer.old) × (most_streams + 1 ≤ length cuts.old) × (get_or cuts.old 0 0 ≡ 0) × (252441 ≤ length text.old) }
    ensures { Lays text.old 0 (replay_text bundle.now) result text.new }
{
    match part(bundle, buffer, cuts) {
        Some(parted) => {
            let ends = parted.count + 1;
            tell_streams::<E>(&buffer[..parted.bytes], &cuts[..ends], text)
        }
        None => word(text, 0, b"bad bundle\n"),
    }
}

// Room for the streams' bytes.
fn bytes_space() -> [u8; 60000]
    ensures { 60000 ≡ length result }
{
    [0; 60000]
}

// Room for the cuts.
fn cuts_space() -> [u64; 257]
    ensures { (257 ≡ length result) × (get_or result 0 0 ≡ 0) }
{
    [0; 257]
}

// Room for the text of a replay.
pub fn text_space() -> [u8; 252441]
    ensures { 252441 ≡ length result }
{
    [0; 252441]
}

// Lays the whole text of a bundle's replay, by either engine, at the front of lent bytes, and answers how many bytes it has. Fewer lent
// bytes than every text fits get 15, and are left as they were. The promise names no engine: both give the same.
pub fn replay_by<E: Engine>(bundle: &[u8], text: &mut [u8]) -> Result<usize, Refusal>
    ensures result_value { answer_with one_value result ≡ replay_answer bundle.now (length text.old) }
    ensures text_after { text.new ≡ replay_laid bundle.now text.old }
{
    if text.len() < TEXT_ROOM {
        return Err(Refusal::BadMemory);
    }
    let mut buffer = bytes_space();
    let mut cuts = cuts_space();
    Ok(write_replay::<E>(bundle, &mut buffer, &mut cuts, text))
}

// The same by the heap engine.
pub fn replay(bundle: &[u8], text: &mut [u8]) -> Result<usize, Refusal>
    ensures result_value { answer_with one_value result ≡ replay_answer bundle.now (length text.old) }
    ensures text_after { text.new ≡ replay_laid bundle.now text.old }
{
    replay_by::<Heap>(bundle, text)
}
