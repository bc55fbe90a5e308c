// A portion of a stream, and the word that a stream has ended (RULES, Requests, No. 5). The window is written here alone.
ghost use Rattle.std.specs.Prelude.{◌≡◌, ◌+◌, ◌<◌, ◌≤◌, true, false, length, drop};
ghost use Rattle.std.proofs.Math.Seq.{paste};
ghost use Rattle.feed_rules.specs.Spans.{counts};
ghost use Rattle.feed_rules.specs.Adding.{word_fits, portion_fits, shut_at, room_for, AddGives, EndGives};
ghost use Rattle.leaves.specs.Refusal.{answer_with};
ghost use Rattle.theory.specs.Answer.{one_value, no_values};
ghost use Rattle.feed_window.specs.Spans.{span_number};

use crate::spans::{FILL, PLACES, Span, WINDOW, WINDOW_BYTES};
use leaves::refusal::Refusal;
use leaves_fields::copies::copy;
use leaves_limits::STREAMS;
use records_state::state::{GONE, WAITING};

// The most bytes that a stream takes in all.
const MOST: u64 = 9223372036854775808;

// The bytes of the window that a stream has, and the places, as other types have them.
const PART: usize = 1024;

const MOST_STREAMS: u64 = STREAMS as u64;

// Whether the arrays lent to the word fit; where not, 15.
fn words_fit(marks: usize, spans: usize) -> bool
    ensures value { result ≡ word_fits marks spans }
    ensures full { result ≡ true → (marks ≡ 256) × (spans ≡ 256) }
{
    marks == PLACES && spans == PLACES
}

// Whether what is lent to a portion fits; where not, 15.
fn portions_fit(marks: usize, places: usize, heads: usize, spans: usize, window: usize) -> bool
    ensures value { result ≡ portion_fits marks places heads spans window }
    ensures full { result ≡ true → (marks ≡ 256) × (places ≡ 256) × (heads ≡ 256) × (spans ≡ 256) × (window ≡ 262144) }
{
    places == PLACES && heads == PLACES && window == WINDOW_BYTES && words_fit(marks, spans)
}

// Whether a stream is ended, closed or not there; where so, 12.
fn is_shut(stream: u64, marks: &[u8], spans: &[u64]) -> bool
    requires { (256 ≤ length marks.now) × (256 ≤ length spans.now) }
    ensures value { result ≡ shut_at stream marks.now spans.now }
    ensures open_one { result ≡ false → stream < 256 }
{
    if MOST_STREAMS <= stream {
        return true;
    }
    let p = stream as usize;
    marks[p] == GONE || Span::from(spans[p]).ended != 0
}

// How many bytes before the place of a stream still count: those of the record that it handed out last.
fn counting(mark: u8, head: u64) -> u64
    ensures { result ≡ counts mark head }
{
    if mark == WAITING { head % FILL } else { 0 }
}

// How many of so many bytes of a portion are taken.
fn room_for(size: u64, mark: u8, place: u64, head: u64, span: Span) -> u64
    ensures value { result ≡ room_for size mark place head (span_number span) }
    ensures few { (result ≤ size) × (span.start + span.fill ≤ 1024 → span.fill + result ≤ 1024) }
{
    let fill = u64::from(span.fill);
    if WINDOW < u64::from(span.start) + fill {
        return 0;
    }
    let had = place.saturating_sub(counting(mark, head));
    let most = (MOST - fill).saturating_sub(had);
    size.min((WINDOW - fill).min(most))
}

// Moves the kept bytes to the front of a stream's part of the window, where they don't stand there.
fn move_front(window: &mut [u8], part: usize, start: usize, fill: usize)
    requires { part + start + fill ≤ length window.old }
    ensures { window.new ≡ paste window.old part (drop (part + start) window.old) fill }
{
    if start == 0 {
        return;
    }
    let from = part + start;
    window.copy_within(from..from + fill, part);
}

// Lays the kept bytes at the front of a stream's part of the window, and so many bytes of a portion behind them.
fn lay(window: &mut [u8], part: usize, start: usize, fill: usize, portion: &[u8], taken: usize)
    requires { (part + start + fill ≤ length window.old) × (part + fill + taken ≤ length window.old) × (taken ≤ length portion.now) }
    ensures { window.new ≡ paste (paste window.old part (drop (part + start) window.old) fill) (part + fill) portion.now taken }
{
    move_front(window, part, start, fill);
    let behind = part + fill;
    copy(&mut window[behind..behind + taken], &portion[..taken]);
}

// Hands in a portion of a stream: as many of its bytes are taken as fit. A refusal leaves everything as it was.
pub fn add(
    stream: u64,
    portion: &[u8],
    marks: &[u8],
    places: &[u64],
    heads: &[u64],
    spans: &mut [u64],
    window: &mut [u8],
) -> Result<u64, Refusal>
    ensures { AddGives window.old marks.now places.now heads.now spans.old stream portion.now
        (answer_with one_value result) window.new spans.new }
{
    if !portions_fit(
        marks.len(),
        places.len(),
        heads.len(),
        spans.len(),
        window.len(),
    ) {
        return Err(Refusal::BadMemory);
    }
    if is_shut(stream, marks, spans) {
        return Err(Refusal::BadStreams);
    }
    let p = stream as usize;
    let span = Span::from(spans[p]);
    if WINDOW < u64::from(span.start) + u64::from(span.fill) {
        return Ok(0);
    }
    let taken = room_for(portion.len() as u64, marks[p], places[p], heads[p], span);
    let (start, fill) = (usize::from(span.start), usize::from(span.fill));
    lay(window, PART * p, start, fill, portion, taken as usize);
    let kept = Span {
        start: 0,
        fill: span.fill + taken as u16,
        ended: 0,
    };
    spans[p] = u64::from(kept);
    Ok(taken)
}

// Says that a stream has ended: no byte of it is to come. A refusal leaves everything as it was.
pub fn end(stream: u64, marks: &[u8], spans: &mut [u64]) -> Result<(), Refusal>
    ensures { EndGives marks.now spans.old stream (answer_with no_values result) spans.new }
{
    if !words_fit(marks.len(), spans.len()) {
        return Err(Refusal::BadMemory);
    }
    if is_shut(stream, marks, spans) {
        return Err(Refusal::BadStreams);
    }
    let p = stream as usize;
    let span = Span::from(spans[p]);
    spans[p] = u64::from(Span { ended: 1, ..span });
    Ok(())
}
