// The replay program: reads a bundle from standard input and writes the records of its streams in the merge's order (RULES, Merging
// records), by the engine that the program is built with.
#![tactic(auto)]

ghost use Rattle.std.specs.Prelude.{◌≡◌, length};
ghost use Rattle.lines.specs.Sections.{streams_in};
ghost use Rattle.standard.specs.Status.{status_number, EndsWith};
ghost use Rattle.replay_main.specs.Status.{status_of, text_status};

use records::engine::{Engine, Heap};
use standard::Status;
use std::io::Input;

// Room for the longest bundle and a byte more, so that a longer one is seen.
fn input_space() -> [u8; 60001]
    ensures { 60001 ≡ length result }
{
    [0; 60001]
}

// The status of a replay's text: that of a bad bundle alone begins with a `b`.
fn status_of(text: &[u8]) -> Status
    ensures { status_number result ≡ text_status text.now }
{
    if text.starts_with(b"b") {
        Status::Bad
    } else {
        Status::Done
    }
}

// Writes a replay's text and answers the number to end with.
fn put(rt: &(impl Print + Eprint), text: &[u8]) -> u8
    ensures { EndsWith (text_status text.now) result }
{
    standard::ended_with(
        rt,
        text,
        status_of(text).into(),
        b"replay: writing standard output",
    )
}

// Writes a bundle's replay, which the lent bytes have room for, and answers the number to end with.
fn show<E: Engine>(rt: &(impl Print + Eprint), bundle: &[u8], text: &mut [u8]) -> u8
    ensures { EndsWith (status_of (streams_in bundle.now)) result }
{
    match replay_text::replay::replay_by::<E>(bundle, text) {
        Ok(n) => put(rt, &text[..n]),
        Err(_) => Status::Failed.into(),
    }
}

// Replays standard input by either engine, and answers the status to end with.
pub fn replayed_by<E: Engine>(rt: &(impl Input + Print + Eprint)) -> u8 {
    let mut input = input_space();
    let mut text = replay_text::replay::text_space();
    match standard::read_input(rt, &mut input, b"replay: reading standard input") {
        Ok(n) => show::<E>(rt, &input[..n], &mut text),
        Err(_) => Status::Failed.into(),
    }
}

// The program: replays standard input to standard output, and answers the status to end with.
pub fn replay_main(rt: &(impl Input + Print + Eprint)) -> u8 {
    replayed_by::<Heap>(rt)
}
