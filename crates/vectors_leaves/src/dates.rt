// Cases of dates: a month's first and last date with their days, and single dates.
use leaves::refusal::Refusal;
use leaves_days::days::{date_of, day_of, day_start};
use vectors_text::narrow;

const DAY_NANOSECONDS: u64 = 86400000000000;

// Whether a date and a day belong together, both ways, and the day starts where it should.
fn are_one(date: u32, day: u32) -> bool {
    day_of(date) == Ok(day)
        && date_of(day) == Ok(date)
        && match day_start(day) {
            Ok(start) => start / DAY_NANOSECONDS == day as u64 && start % DAY_NANOSECONDS == 0,
            Err(_) => false,
        }
}

// A line `YYYYMM FIRST LAST`.
pub fn month(text: &[u8], at: usize) -> bool {
    let month = vectors_text::number_at(text, at);
    let first = vectors_text::number_at(text, month.next);
    let last = vectors_text::number_at(text, first.next);
    if 255412 < month.value || 213503 < last.value || last.value < first.value {
        return false;
    }
    let base = month.value as u32 * 100;
    let days = (last.value - first.value + 1) as u32;
    are_one(base + 1, first.value as u32)
        && are_one(base + days, last.value as u32)
        && day_of(base) == Err(Refusal::NoDate)
        && day_of(base + days + 1) == Err(Refusal::NoDate)
}

// A line `YYYYMMDD DAY`, the day a `-` where the date is refused.
pub fn date(text: &[u8], at: usize) -> bool {
    let date = vectors_text::number_at(text, at);
    let place = vectors_text::past_blanks(text, date.next);
    if vectors_text::byte_at(text, place) == b'-' {
        return day_of(narrow(date.value)) == Err(Refusal::NoDate);
    }
    are_one(
        narrow(date.value),
        narrow(vectors_text::number_at(text, place).value),
    )
}
