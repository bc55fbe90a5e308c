// Words of a list that a rule makes, so that a list at the rules' limits is a few words of the text: a letter and three
// numbers. `n` are names, from the first number on, and from the place of the second on the same once more; `m` mappings of such
// names, each with the third number of intervals; `d` intervals of a day each, from the day of the first number on; `e` every
// other one of these.
ghost use Rattle.std.specs.Prelude.{◌<◌};

use vectors_text::narrow;

// Names from the first on, and from the place `again` on the same once more.
#[derive(Clone, Copy, Debug, PartialEq, Eq)]
pub struct Names {
    first: u32,
    again: u32,
}

#[derive(Clone, Copy, Debug, PartialEq, Eq)]
pub enum Rule {
    Names(Names),
    // Mappings of such names, each with so many intervals.
    Mappings(Names, u32),
    // Intervals from this day on.
    Days(u32),
    EveryOtherDay(u32),
}

// A rule read from the text, and the place behind it; none where the words themselves stand in the text.
#[derive(Clone, Copy, Debug, PartialEq, Eq)]
pub struct Ruled {
    pub rule: Option<Rule>,
    pub next: usize,
}

// The rule at a place, blanks before it passed over.
pub fn rule_at(text: &[u8], at: usize) -> Ruled {
    let place = vectors_text::past_blanks(text, at);
    let letter = vectors_text::byte_at(text, place);
    if letter < b'a' {
        return Ruled {
            rule: None,
            next: at,
        };
    }
    let first = vectors_text::number_at(text, vectors_text::past(text, place));
    let again = vectors_text::number_at(text, first.next);
    let each = vectors_text::number_at(text, again.next);
    let names = Names {
        first: narrow(first.value),
        again: narrow(again.value),
    };
    let rule = match letter {
        b'n' => Rule::Names(names),
        b'm' => Rule::Mappings(names, narrow(each.value)),
        b'd' => Rule::Days(names.first),
        _ => Rule::EveryOtherDay(names.first),
    };
    Ruled {
        rule: Some(rule),
        next: each.next,
    }
}

fn wide(n: u32) -> usize
    ensures { result < 4294967296 }
{
    n as usize
}

// The i-th name.
fn name(names: Names, i: usize) -> u64 {
    let again = wide(names.again);
    if i < again {
        return (wide(names.first) + i) as u64;
    }
    (wide(names.first) + (i - again) % 4294967296) as u64
}

// The n-th date: 27 of each month, so that the day after each is a date too.
fn date(n: usize) -> u64
    ensures { result < 30000000 }
{
    (19700101 + n / 324 % 500 * 10000 + n / 27 % 12 * 100 + n % 27) as u64
}

// A word of the interval of the n-th day: its date, the next one, and a symbol below 4,096.
fn interval_word(n: usize, part: usize) -> u64 {
    match part {
        0 => date(n),
        1 => date(n) + 1,
        _ => (n % 4096) as u64,
    }
}

// The i-th word of a rule.
pub fn made(rule: Rule, i: usize) -> u64 {
    match rule {
        Rule::Names(names) => name(names, i),
        Rule::Mappings(names, _) if i % 2 == 0 => name(names, i / 2),
        Rule::Mappings(_, each) => u64::from(each),
        Rule::Days(first) => interval_word(wide(first) + i / 3, i % 3),
        Rule::EveryOtherDay(first) => interval_word(wide(first) + i / 3 * 2, i % 3),
    }
}
