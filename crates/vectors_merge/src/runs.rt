// What the programs over runs share: room for a run's list, and a run's answer as lines.
ghost use Rattle.std.specs.Prelude.{◌≡◌, length};

use crate::print_number;

// Room for a list: 9s.
pub fn list_space() -> [u64; 12288]
    ensures { 12288 ≡ length result }
{
    [9; 12288]
}

// The calls that were made and the records that were written.
pub fn print_made(calls: usize, written: usize) {
    io::write_all(1, b"ran");
    print_number(calls as u64);
    print_number(written as u64);
    io::write_all(1, b" ");
}

// The first nine of the words that a run wrote.
pub fn print_list(words: &[u64]) {
    io::write_all(1, b"list");
    for word in words.iter().take(9) {
        print_number(*word);
    }
    io::write_all(1, b"\n");
}
