// Answers as lines.
use feed::turns::Fed;
use feed_run::run::{Last, Made};
use leaves::refusal::Refusal;
use records::merge::Record;
use vectors_merge::runs::{print_list, print_made};
use vectors_merge::{print_number, print_refusal};

// A word and a number, on a line.
pub fn print_word(word: &[u8], n: u64) {
    io::write_all(1, word);
    print_number(n);
    io::write_all(1, b"\n");
}

// A record's numbers, with the index of its first byte in the window; and the window's byte at its last, or 0 past the window's end.
fn print_record(window: &[u8], record: Record, at: u64) {
    let last = at.saturating_add(u64::from(record.length.saturating_sub(1)));
    io::write_all(1, b"record");
    print_number(record.stream);
    print_number(record.place);
    print_number(at);
    print_number(u64::from(record.length));
    print_number(u64::from(record.kind));
    print_number(u64::from(record.instrument));
    print_number(record.time);
    print_number(u64::from(window.get(last as usize).copied().unwrap_or(0)));
    io::write_all(1, b"\n");
}

// The next answer; of a record its last byte too.
pub fn print_fed(window: &[u8], answer: Result<Fed, Refusal>) {
    match answer {
        Ok(Fed::Record { record, at }) => print_record(window, record, at),
        Ok(Fed::End) => {
            io::write_all(1, b"end\n");
        }
        Ok(Fed::NeedMore(stream)) => print_word(b"need", stream),
        Err(refusal) => print_refusal(refusal),
    }
}

// What a run answered: what it made, how it stopped, and the words of the list that it was lent.
pub fn print_ran(made: Made, words: &[u64]) {
    print_made(made.calls, made.written);
    match made.last {
        Ok(Last::Going) => {
            io::write_all(1, b"going\n");
        }
        Ok(Last::End) => {
            io::write_all(1, b"end\n");
        }
        Ok(Last::NeedMore(stream)) => print_word(b"need", stream),
        Err(refusal) => print_refusal(refusal),
    }
    print_list(words);
}

// A word and the number of an answer, or its refusal.
pub fn print_answer(word: &[u8], answer: Result<u64, Refusal>) {
    match answer {
        Ok(n) => print_word(word, n),
        Err(refusal) => print_refusal(refusal),
    }
}

pub fn print_ended(answer: Result<(), Refusal>) {
    match answer {
        Ok(()) => {
            io::write_all(1, b"done\n");
        }
        Err(refusal) => print_refusal(refusal),
    }
}
