// What is kept of a stream: a span of its part of the window, and a read at its front (RULES, Requests, No. 5). In lent memory a span is
// one number, start + 65,536 x fill + 2^32 x ended; the window has 1,024 bytes a stream.
ghost use Rattle.std.specs.Prelude.{◌≡◌, not, ◌<◌, ◌/◌, eqb};
ghost use Rattle.leaves.specs.Frame.{head_of};
ghost use Rattle.feed_rules.specs.Partial.{part, known_at};
ghost use Rattle.feed_rules.specs.Spans.{dropped, bytes_in, settled};
ghost use Rattle.feed_window.specs.Spans.{span_number, span_of, read_known};

use leaves::frame::{Head, read_within};
use leaves::refusal::Reason;
use leaves_limits::STREAMS;

// The bytes of the window that a stream has.
pub const WINDOW: u64 = 1024;

// The bytes of the window of all streams, and the places of the spans.
pub const WINDOW_BYTES: usize = 262144;

pub const PLACES: usize = STREAMS;

// The factors of fill and of ended in a span's number; a record's head has its kind and its instrument at the same.
pub const FILL: u64 = 65536;

pub const ENDED: u64 = 4294967296;

// What is left of a span's number for each byte that is dropped at its front.
const DROPPED: u64 = 65535;

// So many bytes of a stream's part of the window are kept, from `start` on; once the stream has ended, `ended` is not 0.
#[derive(Clone, Copy, Debug, PartialEq, Eq)]
pub struct Span {
    pub start: u16,
    pub fill: u16,
    pub ended: u32,
}

impl From<u64> for Span {
    ghost from_gives = { λ number span. span ≡ span_of number };

    fn from(number: u64) -> Span {
        Span {
            start: (number % FILL) as u16,
            fill: (number / FILL % FILL) as u16,
            ended: (number / ENDED) as u32,
        }
    }
}

impl From<Span> for u64 {
    ghost from_gives = { λ span number. number ≡ span_number span };

    fn from(span: Span) -> u64 {
        u64::from(span.start) + FILL * u64::from(span.fill) + ENDED * u64::from(span.ended)
    }
}

impl Span {
    // The span without its first bytes; where it has fewer, as it is.
    fn without(self, skip: u64) -> Span
        ensures { span_number result ≡ dropped (span_number self) skip }
    {
        if u64::from(self.fill) < skip {
            return self;
        }
        Span::from(u64::from(self) - DROPPED * skip)
    }
}

// What a read of the window found, or that more must come first; and the span without what was read past.
#[derive(Clone, Copy, Debug, PartialEq, Eq)]
pub struct Got {
    pub found: Option<Result<Option<Head>, Reason>>,
    pub span: Span,
}

// Whether it is known what was found: a record, a bad length, or whatever was found where the stream has been ended.
fn is_known(found: Result<Option<Head>, Reason>, span: Span) -> bool
    ensures { result ≡ settled (not (eqb span.ended 0)) (head_of found) }
{
    if span.ended != 0 {
        return true;
    }
    match found {
        Ok(head) => head.is_some(),
        Err(reason) => reason == Reason::BadLength,
    }
}

// What stands at the front of a stream's span without its first bytes.
pub fn read_window(window: &[u8], stream: usize, span: Span, skip: u64) -> Got
    requires { stream < 256 }
    ensures span_value { span_number result.span ≡ dropped (span_number span) skip }
    ensures found_value { read_known result.found ≡ known_at (part (bytes_in window.now stream (dropped (span_number span) skip)) (not (eqb (dropped (span_number span) skip / 4294967296) 0))) 0 }
{
    let span = span.without(skip);
    let from = WINDOW * (stream as u64) + u64::from(span.start);
    let found = read_within(window, from, from + u64::from(span.fill), 0);
    let known = is_known(found, span);
    Got {
        found: known.then_some(found),
        span,
    }
}
