// Standard input read to its end, and a text written to standard output, for every program, over std. What the system refuses is said in one
// line on standard error: what the program was doing, and the system's reason.
#![tactic(auto)]

ghost use Rattle.std.specs.Prelude.{◌≡◌, ◌+◌, ◌≤◌, IfOk, length};
ghost use Rattle.standard.specs.Status.{status_number, Ends, exit_number, EndsWith};

use std::io;
use std::io::{Cursor, Input, Read, Write};

// The status that a program ends with.
#[derive(Clone, Copy, Debug, PartialEq, Eq)]
pub enum Status {
    // It did what it was asked: 0.
    Done,
    // A bad bundle, or a refusal: 1.
    Bad,
    // Reading or writing failed: 2.
    Failed,
}

impl From<Status> for u8 {
    ghost from_gives = { λ status number. number ≡ status_number status };

    fn from(status: Status) -> u8 {
        match status {
            Status::Done => 0,
            Status::Bad => 1,
            Status::Failed => 2,
        }
    }
}

// Reading or writing failed.
#[derive(Clone, Copy, Debug, PartialEq, Eq)]
pub struct Failure;

// The number to end with: the status's, or 2 where reading or writing failed.
pub fn exit_number(outcome: Result<Status, Failure>) -> u8
    ensures { result ≡ exit_number outcome }
{
    outcome.unwrap_or(Status::Failed).into()
}

// Room for a portion of lines.
pub fn text_space() -> [u8; 65536]
    ensures { 65536 ≡ length result }
{
    [0; 65536]
}

// Says in one line on standard error what the program was doing and the system's reason, which is std's text but for the number
// behind it. Where that line can't be written either, nobody is left to tell.
fn fail(rt: &impl Eprint, doing: &[u8], error: &io::Error) -> Failure {
    let mut space = [0u8; 256];
    let mut out = Cursor::new(&mut space[..]);
    let _ = write!(out, "{error}");
    let used = out.position() as usize;
    let text = std::str::from_utf8(&space[..used.min(space.len())]).unwrap_or("");
    let reason = match text.split_once(" (os error ") {
        Some((words, _)) => words,
        None => text,
    };
    let _ = rt.eprintln(format_args!("{}: {reason}", doing.escape_ascii()));
    Failure
}

// Reads once, into the lent bytes from a place on, and answers how many bytes came.
fn read_at(reader: &mut impl Read, space: &mut [u8], at: usize) -> io::Result<usize>
    requires { at ≤ length space.old }
    ensures { IfOk result (λ n. at + n ≤ length space.old) }
{
    reader.read(&mut space[at..])
}

// Reads standard input to its end, or until the lent bytes are full, and answers how many bytes came.
pub fn read_input(
    rt: &(impl Input + Eprint),
    space: &mut [u8],
    doing: &[u8],
) -> Result<usize, Failure>
    ensures { IfOk result (λ n. n ≤ length space.new) }
{
    // A loop, since no call of std fills lent bytes up to the end of the input. What was being done comes as bytes: `&str` would ask more.
    let mut reader = rt.reader();
    let mut used = 0;
    while used < space.len() {
        let came = read_at(&mut reader, space, used).map_err(|error| fail(rt, doing, &error))?;
        if came == 0 {
            break;
        }
        used += came;
    }
    Ok(used)
}

// Writes a text to standard output.
pub fn write_output(rt: &(impl Print + Eprint), text: &[u8], doing: &[u8]) -> Result<(), Failure> {
    rt.write_all(text).map_err(|error| fail(rt, doing, &error))
}

// Writes a program's last text, and answers the status to end with.
pub fn ended(
    rt: &(impl Print + Eprint),
    text: &[u8],
    status: Status,
    doing: &[u8],
) -> Result<Status, Failure>
    ensures { Ends (status_number status) result }
{
    write_output(rt, text, doing)?;
    Ok(status)
}

// Writes a program's last text, and answers the number to end with: this one, or 2 where that failed.
pub fn ended_with(rt: &(impl Print + Eprint), text: &[u8], status: u8, doing: &[u8]) -> u8
    ensures { EndsWith status result }
{
    match write_output(rt, text, doing) {
        Ok(()) => status,
        Err(_) => Status::Failed.into(),
    }
}
