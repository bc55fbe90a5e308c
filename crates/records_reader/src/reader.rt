// A reader holds a stream's bytes and a place. The work is in `read_at`, over a part and a number; these methods take the reader apart
// and put it together.
ghost use Rattle.std.specs.Prelude.{◌≡◌};
ghost use Rattle.leaves.specs.Frame.{frame_at, frame_of, read_of};

use leaves::frame::{Head, frame_at};
use leaves::refusal::Reason;

// What stands at a place of a stream's bytes.
pub fn read_at(part: &[u8], place: usize) -> Result<Option<Head>, Reason>
    ensures { frame_of result ≡ read_of (frame_at part.now place) }
{
    frame_at(part, place as u64)
}

#[derive(Clone, Copy, Debug, PartialEq, Eq)]
pub struct Reader<'a> {
    pub src: &'a [u8],
    pub at: usize,
}

impl<'a> Reader<'a> {
    // A reader at the stream's start.
    pub fn new(src: &'a [u8]) -> Reader<'a>
        ensures { (result.src ≡ src.entry) × (result.at ≡ 0) }
    {
        Reader { src, at: 0 }
    }

    // The reader at another place.
    pub fn moved(self, at: usize) -> Reader<'a>
        ensures { (result.src ≡ self.entry.src) × (result.at ≡ at) }
    {
        Reader { at, ..self }
    }

    // What stands at the reader's place.
    pub fn read(self) -> Result<Option<Head>, Reason>
        ensures { frame_of result ≡ read_of (frame_at self.entry.src.now self.entry.at) }
    {
        read_at(self.src, self.at)
    }
}
