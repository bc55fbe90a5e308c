// Runs the cases of two tables side by side that stand on standard input, and prints how many there were and how many of them were
// answered otherwise than expected; each of those is printed. The data itself says what a line means.
#![tactic(auto)]

ghost use Rattle.std.specs.Prelude.{◌≡◌, length};

use map_compare::compare::{Lent, compare};

// Room for the lent bytes of one case.
fn room() -> [u8; 1024]
    ensures { 1024 ≡ length result }
{
    [0; 1024]
}

// Whether the comparison answers as expected, how many stretches or the refusal's number, and leaves the list's bytes as expected.
fn compares(lent: Lent<'_>, list: &mut [u8], expected: Result<usize, u64>, after: &[u8]) -> bool {
    let answered = compare(lent, list).map_err(|refusal| refusal.number() as u64);
    answered == expected && *list == *after
}

// What stands behind the tables of a line: `NAMES LIST = NUMBER COUNT LIST`; the count counts where the number is 0.
fn lists(
    text: &[u8],
    at: usize,
    left: &[u8],
    left_used: u64,
    right: &[u8],
    right_used: u64,
) -> bool {
    let mut list = room();
    let mut after = room();
    let names = vectors_text::number_at(text, at);
    let t = vectors_text::bytes_at(text, names.next, &mut list);
    let number = vectors_text::number_at(text, vectors_text::past_equals(text, t.next));
    let count = vectors_text::number_at(text, number.next);
    let a = vectors_text::bytes_at(text, count.next, &mut after);
    let lent = Lent {
        left,
        left_used: left_used as usize,
        right,
        right_used: right_used as usize,
        names: names.value as usize,
    };
    let expected = match number.value {
        0 => Ok(count.value as usize),
        refused => Err(refused),
    };
    compares(lent, &mut list[..t.count], expected, &after[..a.count])
}

// A line `LEFT USED RIGHT USED`, and what stands behind it.
fn is_right(text: &[u8], at: usize) -> bool {
    let mut left = room();
    let mut right = room();
    let l = vectors_text::bytes_at(text, at, &mut left);
    let left_used = vectors_text::number_at(text, l.next);
    let r = vectors_text::bytes_at(text, left_used.next, &mut right);
    let right_used = vectors_text::number_at(text, r.next);
    lists(
        text,
        right_used.next,
        &left[..l.count],
        left_used.value,
        &right[..r.count],
        right_used.value,
    )
}

fn main() {
    let mut data = vectors_text::data_room();
    let n = io::read_full(0, &mut data);
    let text = &data[..n];
    vectors_text::run_group(text, b"compare", |at| is_right(text, at));
}
