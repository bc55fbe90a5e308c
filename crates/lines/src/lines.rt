// The lines of a replay (RULES, Merging records), laid one behind the other in lent bytes. A place goes in beside the text and comes out: a
// struct over both would be no plainer, since each contract would say besides that the lent bytes keep their length.
ghost use Rattle.std.specs.Prelude.{◌+◌, ◌≤◌, length};
ghost use Rattle.lines.specs.Lines.{decimal, record_line, damage_line, Lays};

// Lays a word at a place, and answers the place behind it.
pub fn word(text: &mut [u8], at: usize, word: &[u8]) -> usize
    requires { at + length word.now ≤ length text.old }
    ensures { Lays text.old at word.now result text.new }
{
    let next = at + word.len();
    text[at..next].copy_from_slice(word);
    next
}

// Lays a number's decimal digits at a place, and answers the place behind them.
pub fn number(text: &mut [u8], at: usize, n: u64) -> usize
    requires { at + 20 ≤ length text.old }
    ensures { Lays text.old at (decimal n) result text.new × (result ≤ at + 20) }
{
    let mut digits = [0u8; 20];
    let k = io::decimal(n, &mut digits);
    word(text, at, &digits[..k])
}

// Lays a record's line: stream, time, instrument. It takes 63 bytes at most: three numbers of 20 digits, two blanks, a line's end.
pub fn record_line(text: &mut [u8], at: usize, stream: u64, time: u64, instrument: u32) -> usize
    requires { at + 63 ≤ length text.old }
    ensures { Lays text.old at (record_line stream time instrument) result text.new × (result ≤ at + 63) }
{
    let a = number(text, at, stream);
    let b = word(text, a, b" ");
    let c = number(text, b, time);
    let d = word(text, c, b" ");
    let e = number(text, d, instrument as u64);
    word(text, e, b"\n")
}

// Lays a damage line: stream, that it is damaged, and the place. It takes 50 bytes at most.
pub fn damage_line(text: &mut [u8], at: usize, stream: u64, place: u64) -> usize
    requires { at + 63 ≤ length text.old }
    ensures { Lays text.old at (damage_line stream place) result text.new × (result ≤ at + 63) }
{
    let a = number(text, at, stream);
    let b = word(text, a, b" damaged ");
    let c = number(text, b, place);
    word(text, c, b"\n")
}
