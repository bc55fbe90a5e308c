// The explain program: reads a table and questions from standard input and writes a line a question (RULES, Requests, No. 4). Its input
// is three sections: the name count (4 bytes), the table's intervals, the questions.
#![tactic(auto)]

ghost use Rattle.std.specs.Prelude.{◌≡◌, ◌≤◌, length};
ghost use Rattle.theory.specs.Answer.{no_values};
ghost use Rattle.leaves.specs.Refusal.{answer_with};
ghost use Rattle.standard.specs.Status.{status_number, Ends, EndsWith};
ghost use Rattle.explain_main.specs.Asked.{are_questions, answer_status, asked_status, status_of};

use crate::telling::{Asked, QUESTION, lay_portion};
use leaves::refusal::Refusal;
use lines::asked::{NAMES_BYTES, table_end};
use lines::parts::PART_HEAD;
use standard::{Failure, Status, exit_number, text_space};
use std::io::Input;

pub mod telling;

// The kind of the section with the questions.
const QUESTIONS: u16 = 4;

// At most so many questions.
const MOST_QUESTIONS: usize = 65536;

// An input over this many bytes is bad.
const MOST_BYTES: usize = 2359318;

// Room for the longest input and a byte more, so that a longer one is seen.
fn input_space() -> [u8; 2359319]
    ensures { 2359319 ≡ length result }
{
    [0; 2359319]
}

// Whether so many bytes are whole questions, and not too many.
#[tactic(auto, unfolding(crate::specs::Asked::are_questions))]
fn are_questions(bytes: usize) -> bool
    ensures { result ≡ are_questions bytes }
{
    bytes % QUESTION == 0 && bytes / QUESTION <= MOST_QUESTIONS
}

// Writes the last line and answers the status.
fn say(rt: &(impl Print + Eprint), text: &[u8], status: Status) -> Result<Status, Failure>
    ensures { Ends (status_number status) result }
{
    standard::ended(rt, text, status, b"explain: writing standard output")
}

// Writes a portion of lines.
fn put(rt: &(impl Print + Eprint), text: &[u8]) -> Result<(), Failure> {
    standard::write_output(rt, text, b"explain: writing standard output")
}

// The status of questions about a table of which the check said this.
fn status_of(checked: Result<(), Refusal>) -> Status
    ensures { status_number result ≡ answer_status (answer_with no_values checked) }
{
    match checked {
        Ok(()) => Status::Done,
        Err(_) => Status::Bad,
    }
}

// Writes the line of each question, portion by portion.
fn tell_all(
    rt: &(impl Print + Eprint),
    asked: Asked,
    questions: &[u8],
    text: &mut [u8],
) -> Result<Status, Failure>
    requires { 218 ≤ length text.old }
    ensures { Ends (answer_status (answer_with no_values asked.entry.checked)) result }
{
    let mut next = 0;
    while next < questions.len() / QUESTION {
        let p = lay_portion(asked, questions, next, text);
        put(rt, &text[..p.at])?;
        next = p.next;
    }
    say(rt, b"", status_of(asked.checked))
}

// Answers questions about a table of which every interval is in use, or writes only the line that says that they are none.
fn answer_all(
    rt: &(impl Print + Eprint),
    table: &[u8],
    names: usize,
    questions: &[u8],
    text: &mut [u8],
) -> Result<Status, Failure>
    requires { 218 ≤ length text.old }
    ensures { Ends (asked_status table.now names (length questions.now)) result }
{
    if !are_questions(questions.len()) {
        return say(rt, b"bad bundle\n", Status::Bad);
    }
    tell_all(rt, Asked::new(table, names), questions, text)
}

// Takes the input apart and answers, or writes only the line that says that it is bad.
#[tactic(auto, using(crate::specs::AskedLaws::status_bad, crate::specs::AskedLaws::status_asked, crate::specs::AskedLaws::ends_too))]
fn answered(rt: &(impl Print + Eprint), input: &[u8], text: &mut [u8]) -> Result<Status, Failure>
    requires { 218 ≤ length text.old }
    ensures { Ends (status_of input.now) result }
{
    let Some(end) = table_end(input, MOST_BYTES, QUESTIONS) else {
        return say(rt, b"bad bundle\n", Status::Bad);
    };
    let names = leaves_fields::fields::u32_at(input, PART_HEAD) as usize;
    let table = &input[NAMES_BYTES + PART_HEAD..end];
    answer_all(rt, table, names, &input[end + PART_HEAD..], text)
}

// Takes the input apart and answers, and answers the number to end with.
#[tactic(auto, using(standard::specs::Status::ends_with))]
fn show(rt: &(impl Print + Eprint), input: &[u8], text: &mut [u8]) -> u8
    requires { 218 ≤ length text.old }
    ensures { EndsWith (status_of input.now) result }
{
    exit_number(answered(rt, input, text))
}

// The program: answers the questions of standard input, and answers the status to end with.
pub fn explain_main(rt: &(impl Input + Print + Eprint)) -> u8 {
    let mut input = input_space();
    let mut text = text_space();
    match standard::read_input(rt, &mut input, b"explain: reading standard input") {
        Ok(n) => show(rt, &input[..n], &mut text),
        Err(_) => Status::Failed.into(),
    }
}
