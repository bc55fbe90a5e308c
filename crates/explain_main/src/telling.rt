// A question's line: instrument, moment, then the reason's word with the numbers of each interval that it names, or the refusal. Lines
// are laid in lent bytes portion by portion.
ghost use Rattle.std.specs.Prelude.{◌≡◌, [], ◌∷◌, ◌++◌, ◌+◌, ◌*◌, ◌/◌, ◌≤◌, length};
ghost use Rattle.theory.specs.Answer.{no_values};
ghost use Rattle.leaves.specs.Refusal.{answer_with};
ghost use Rattle.lines.specs.Lines.{Lays};
ghost use Rattle.map_rules.specs.Memory.{check_answer};
ghost use Rattle.map_explain.specs.Explain.{named_of, rows_answer, explained_values};
ghost use Rattle.explain_main.specs.Text.{numbers_text, values_text, answer_text, line_text, Ready, after_check, question_text};
ghost use Rattle.explain_main.specs.Portions.{Portioned};

use leaves::refusal::Refusal;
use leaves_fields::fields::{u32_at, u64_at};
use lines::lines::{number, word};
use map_explain::explain::{Explained, Named, explain_checked};
use map_table::interval::WIDTH;

// The bytes of a question: instrument 4, moment 8.
pub const QUESTION: usize = 12;

// Where in them the moment stands.
const MOMENT_AT: usize = 4;

// Room that every line fits: ten numbers of 20 digits, nine blanks, the longest word and the line's end.
const LINE: usize = 218;

// A table with so many intervals in use, and what the check said of it.
#[derive(Clone, Copy)]
pub struct Asked<'a> {
    pub table: &'a [u8],
    pub used: usize,
    pub checked: Result<(), Refusal>,
    pub ghost ready: { Ready table.now used checked },
}

// Where a text ends, and the question that comes next.
#[derive(Clone, Copy)]
pub struct Portion {
    pub at: usize,
    pub next: usize,
}

impl<'a> Asked<'a> {
    // The table, all of it in use, checked.
    pub fn new(table: &'a [u8], names: usize) -> Asked<'a>
        ensures table { result.table.now ≡ table.now }
        ensures used { result.used ≡ length table.now / 24 }
        ensures checked { answer_with no_values result.checked ≡ check_answer table.now (length table.now / 24) names }
    {
        let used = table.len() / WIDTH;
        Asked {
            table,
            used,
            checked: map_table::table::check(table, used, names),
        }
    }

    // Why the instrument has a symbol at the moment, or none; or the check's refusal.
    fn explain(self, instrument: u32, moment: u64) -> Result<Explained, Refusal>
        ensures { answer_with explained_values result
            ≡ after_check self.entry.checked (rows_answer self.entry.table.now self.entry.used instrument moment) }
    {
        self.checked?;
        Ok(explain_checked(self.table, self.used, instrument, moment))
    }
}

// Lays two numbers, a blank before each.
fn pair(text: &mut [u8], at: usize, x: u64, y: u64) -> usize
    requires { at + 42 ≤ length text.old }
    ensures { Lays text.old at (numbers_text (x ∷ y ∷ [])) result text.new × (result ≤ at + 42) }
{
    let a = word(text, at, b" ");
    let b = number(text, a, x);
    let c = word(text, b, b" ");
    number(text, c, y)
}

// Lays the numbers of an interval.
fn numbers(text: &mut [u8], at: usize, x: Named) -> usize
    requires { at + 84 ≤ length text.old }
    ensures { Lays text.old at (numbers_text (named_of x)) result text.new × (result ≤ at + 84) }
{
    let a = pair(text, at, x.index, x.start);
    pair(text, a, x.end, x.symbol as u64)
}

// Lays a reason's word and the numbers of an interval.
fn named(text: &mut [u8], at: usize, reason: &[u8], x: Named) -> usize
    requires { at + length reason.now + 84 ≤ length text.old }
    ensures { Lays text.old at (reason.now ++ numbers_text (named_of x)) result text.new × (result ≤ at + length reason.now + 84) }
{
    let a = word(text, at, reason);
    numbers(text, a, x)
}

// Lays what an explanation says.
fn reason(text: &mut [u8], at: usize, explained: Explained) -> usize
    requires { at + 176 ≤ length text.old }
    ensures { Lays text.old at (values_text (explained_values explained)) result text.new × (result ≤ at + 176) }
{
    match explained {
        Explained::In(x) => named(text, at, b" in", x),
        Explained::Unknown => word(text, at, b" unknown"),
        Explained::Before(x) => named(text, at, b" before", x),
        Explained::After(x) => named(text, at, b" after", x),
        Explained::Between(x, y) => {
            let a = named(text, at, b" between", x);
            numbers(text, a, y)
        }
    }
}

// Lays what the answer says, an explanation or a refusal.
fn answer(text: &mut [u8], at: usize, answer: Result<Explained, Refusal>) -> usize
    requires { at + 176 ≤ length text.old }
    ensures { Lays text.old at (answer_text (answer_with explained_values answer)) result text.new × (result ≤ at + 176) }
{
    match answer {
        Ok(explained) => reason(text, at, explained),
        Err(refusal) => {
            let a = word(text, at, b" refused ");
            number(text, a, refusal.number() as u64)
        }
    }
}

// Lays a question's line.
fn line(
    text: &mut [u8],
    at: usize,
    instrument: u32,
    moment: u64,
    said: Result<Explained, Refusal>,
) -> usize
    requires { at + 218 ≤ length text.old }
    ensures { Lays text.old at (line_text instrument moment (answer_with explained_values said)) result text.new × (result ≤ at + 218) }
{
    let a = number(text, at, instrument as u64);
    let b = word(text, a, b" ");
    let c = number(text, b, moment);
    let d = answer(text, c, said);
    word(text, d, b"\n")
}

// Lays the line of the question at place k.
fn tell(asked: Asked, questions: &[u8], k: usize, text: &mut [u8], at: usize) -> usize
    requires { (k * 12 + 12 ≤ length questions.now) × (at + 218 ≤ length text.old) }
    ensures { Lays text.old at
        (question_text asked.entry.table.now asked.entry.used asked.entry.checked questions.now k) result text.new × (result ≤ at + 218) }
{
    let instrument = u32_at(questions, k * QUESTION);
    let moment = u64_at(questions, k * QUESTION + MOMENT_AT);
    let said = asked.explain(instrument, moment);
    line(text, at, instrument, moment, said)
}

// Lays whole lines from a question on until no question is left or the next line might not fit, and answers where the text ends and
// which question comes next.
pub fn lay_portion(asked: Asked, questions: &[u8], from: usize, text: &mut [u8]) -> Portion
    requires { (from ≤ length questions.now / 12) × (218 ≤ length text.old) }
    ensures { Portioned asked.entry.table.now asked.entry.used asked.entry.checked
        questions.now (length questions.now / 12) from result.next result.at text.new }
{
    let mut at = 0;
    for k in from..questions.len() / QUESTION {
        if text.len() - at < LINE {
            return Portion { at, next: k };
        }
        at = tell(asked, questions, k, text, at);
    }
    Portion {
        at,
        next: questions.len() / QUESTION,
    }
}
