// What the programs that run vectors share: a text of cases, one to a line, taken apart, and the lines that are printed.
// Nothing here but a run asks for anything: a place past the text's end reads as the end of a line.
#![tactic(auto)]

ghost use Rattle.std.specs.Prelude.{◌≡◌, ◌≤◌, ◌+◌, ◌<◌, length, IfSome, OnSome};
ghost use Rattle.io.specs.Counts.{IsPrefixLen};

// A number read from the text, and the place after it.
#[derive(Clone, Copy, Debug, PartialEq, Eq)]
pub struct Token {
    pub value: u64,
    pub next: usize,
}

// Room for the whole data of a program.
pub fn data_room() -> [u8; 262144]
    ensures { 262144 ≡ length result }
{
    [0; 262144]
}

// The byte at a place; past the end it is the end of a line.
pub fn byte_at(text: &[u8], at: usize) -> u8 {
    text.get(at).copied().unwrap_or(b'\n')
}

// The place after one; at the end it is the end.
pub fn past(text: &[u8], at: usize) -> usize {
    if at < text.len() { at + 1 } else { at }
}

// The first place, from one on, of a byte that is sought; or the text's end.
fn seek<F: Fn(u8) -> bool>(text: &[u8], from: usize, is_sought: F) -> usize
    requires { F.IsAlwaysCallable is_sought }
    ensures { from ≤ result }
{
    for i in from..text.len() {
        if is_sought(text[i]) {
            return i;
        }
    }
    from.max(text.len())
}

// Where the line that a place stands in ends.
pub fn line_end(text: &[u8], at: usize) -> usize
    ensures { at ≤ result }
{
    seek(text, at, |byte| byte == b'\n')
}

// Where the line after the one that a place stands in begins.
pub fn next_line(text: &[u8], at: usize) -> usize
    ensures { at < length text.now → at < result }
{
    let end = line_end(text, at);
    if end < text.len() { end + 1 } else { end }
}

// The place of the first byte from a place on that is no blank.
pub fn past_blanks(text: &[u8], at: usize) -> usize {
    seek(text, at, |byte| byte != b' ')
}

// What a digit stands for, decimal or hexadecimal.
fn digit(byte: u8) -> Option<u8>
    ensures { IfSome result (λ value. value < 16) }
{
    match byte {
        b'0'..=b'9' => Some(byte - b'0'),
        b'A'..=b'F' => Some(byte - b'A' + 10),
        b'a'..=b'f' => Some(byte - b'a' + 10),
        _ => None,
    }
}

// Where the word that a place stands in ends: at a blank, or at the line's end.
pub fn word_end(text: &[u8], at: usize) -> usize {
    seek(text, at, |byte| byte == b' ' || byte == b'\n')
}

// Whether the word at a place is this one.
pub fn is_word(text: &[u8], at: usize, word: &[u8]) -> bool {
    match text.get(at..word_end(text, at)) {
        Some(found) => found == word,
        None => false,
    }
}

// Where the first line of a group begins, from a line's begin on; or the text's end. A group is the lines whose first word is its name.
pub fn group_from(text: &[u8], from: usize, name: &[u8]) -> usize
    ensures { from ≤ result }
{
    let mut at = from;
    while at < text.len() {
        if is_word(text, at, name) {
            return at;
        }
        at = next_line(text, at);
    }
    at
}

// Where the group's next line begins, behind the line at a place.
fn group_next(text: &[u8], at: usize, name: &[u8]) -> usize
    ensures { at < length text.now → at < result }
{
    group_from(text, next_line(text, at), name)
}

// A value with one more digit; none where the byte is no digit, or the value would pass the largest.
fn append(value: u64, byte: u8) -> Option<u64> {
    if !byte.is_ascii_digit() {
        return None;
    }
    value.checked_mul(10)?.checked_add((byte - b'0') as u64)
}

// The decimal number at a place, blanks before it passed over; 0 where no digit stands there. Digits that would pass the largest number
// are cut there.
pub fn number_at(text: &[u8], at: usize) -> Token {
    let first = past_blanks(text, at);
    let mut value = 0;
    for i in first..text.len() {
        match append(value, text[i]) {
            Some(longer) => value = longer,
            None => return Token { value, next: i },
        }
    }
    Token {
        value,
        next: first.max(text.len()),
    }
}

// A number as one of 32 bits; one that is too great is cut there.
pub fn narrow(n: u64) -> u32 {
    u32::try_from(n).unwrap_or(u32::MAX)
}

// The byte that two hexadecimal digits at a place spell.
fn pair_at(text: &[u8], at: usize) -> Option<u8>
    ensures { OnSome result (at + 1 < length text.now) }
{
    let high = digit(*text.get(at)?)?;
    let low = digit(*text.get(at + 1)?)?;
    Some(high * 16 + low)
}

// Bytes read from the text: how many, and the place after them.
#[derive(Clone, Copy, Debug, PartialEq, Eq)]
pub struct Word {
    pub count: usize,
    pub next: usize,
}

// The bytes that a word of hexadecimal digits at a place spells, blanks before it passed over, put into out; a `-` is no byte.
pub fn bytes_at(text: &[u8], at: usize, out: &mut [u8]) -> Word
    ensures { IsPrefixLen result.count out.new }
{
    let mut place = past_blanks(text, at);
    for n in 0..out.len() {
        match pair_at(text, place) {
            Some(byte) => out[n] = byte,
            None => {
                return Word {
                    count: n,
                    next: past_dash(text, place),
                };
            }
        }
        place += 2;
    }
    Word {
        count: out.len(),
        next: place,
    }
}

// The place after a `-`, or the place itself.
fn past_dash(text: &[u8], at: usize) -> usize {
    if byte_at(text, at) == b'-' {
        past(text, at)
    } else {
        at
    }
}

// The place after the next `=`, or the text's end.
pub fn past_equals(text: &[u8], at: usize) -> usize {
    past(text, seek(text, at, |byte| byte == b'='))
}

// How many cases were tried, and how many of them were answered otherwise than expected.
#[derive(Clone, Copy, Debug, PartialEq, Eq, Default)]
pub struct Tally {
    pub cases: u64,
    pub wrong: u64,
}

impl Tally {
    // One case more, which is the line that a place stands in; it is printed where it was answered otherwise than expected.
    pub fn hear(&mut self, text: &[u8], at: usize, right: bool) {
        self.cases = self.cases.saturating_add(1);
        if !right {
            self.wrong = self.wrong.saturating_add(1);
            print_wrong(text.get(at..line_end(text, at)).unwrap_or(b""));
        }
    }

    // Prints a group's line: its name, how many cases it had and how many of them were answered otherwise than expected.
    pub fn print(&self, name: &[u8]) {
        io::write_all(1, name);
        io::write_all(1, b": ");
        io::print_decimal(1, self.cases);
        io::write_all(1, b" cases, ");
        io::print_decimal(1, self.wrong);
        io::write_all(1, b" wrong\n");
    }
}

// Prints a case that was answered otherwise than expected.
fn print_wrong(name: &[u8]) {
    io::write_all(1, b"wrong: ");
    io::write_all(1, name);
    io::write_all(1, b"\n");
}

// Runs the lines of a group, each from the place behind its first word on, and prints the group's line.
pub fn run_group<F: FnMut(usize) -> bool>(text: &[u8], name: &[u8], mut is_right: F)
    requires { F.IsAlwaysCallable is_right }
{
    let mut tally = Tally::default();
    let mut at = group_from(text, 0, name);
    while at < text.len() {
        let right = is_right(word_end(text, at));
        tally.hear(text, at, right);
        at = group_next(text, at, name);
    }
    tally.print(name);
}
