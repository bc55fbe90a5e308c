// Dates and days (RULES, Names, numbers, days), by the calendar of ISO 8601. A date is the number YYYYMMDD, DBN's own form.
ghost use Rattle.std.specs.Prelude.{◌≡◌, ◌-◌, ◌≤◌, ◌<◌};
ghost use Rattle.leaves_days.specs.Calendar.{is_leap, year_days, days_of_years, days_before, leap_day};
ghost use Rattle.leaves_days.specs.CalendarDates.{YearOf, MonthOf};
ghost use Rattle.theory.specs.Answer.{one_value};
ghost use Rattle.leaves.specs.Refusal.{answer_with};
ghost use Rattle.leaves_days.specs.Days.{known_date, day_of, date_of, day_start};

use leaves::refusal::Refusal;
use leaves_limits::DAY_NANOSECONDS;

// The range: 1970-01-01 to 2554-07-21, the last day whose start fits 64 bits.
const FIRST_YEAR: u32 = 1970;

const FIRST_DATE: u32 = 19700101;

const LAST_DATE: u32 = 25540721;

const LAST_DAY: u32 = 213503;

// YYYYMMDD: month and day take two digits each, the year stands before four.
const TWO_DIGITS: u32 = 100;

const FOUR_DIGITS: u32 = 10000;

// A leap year is divisible by 4, and not by 100 unless by 400.
const LEAP_EVERY: u32 = 4;

const CENTURY: u32 = 100;

const FOUR_CENTURIES: u32 = 400;

const COMMON_YEAR: u32 = 365;
// Four years, one of them a leap year.
const FOUR_YEARS: u32 = 1461;
// The leap years from year 1 to 1969.
const LEAPS_BEFORE: u32 = 477;

const FEBRUARY: u32 = 2;

const DECEMBER: u32 = 12;

const SHORTEST_MONTH: u32 = 28;

const LONGEST_MONTH: u32 = 31;
// The days of a common year before each month, from month 0, which is none, to month 13, the year's end.
const MONTH_BEFORE: [u32; 14] = [
    0, 0, 31, 59, 90, 120, 151, 181, 212, 243, 273, 304, 334, 365,
];

// The leap days of a year: 1 in a leap year, 0 in a common one.
fn leap_day(year: u32) -> u32
    ensures { result ≡ leap_day (is_leap year) }
{
    if year % LEAP_EVERY != 0 {
        return 0;
    }
    if year % CENTURY != 0 {
        return 1;
    }
    if year % FOUR_CENTURIES != 0 {
        return 0;
    }
    1
}

// The days from 1970-01-01 to the first of January of a year.
fn before_year(year: u32) -> u32
    requires { (1970 ≤ year) × (year ≤ 2600) }
    ensures { result ≡ days_of_years (year - 1970) }
{
    let past = year - 1;
    let leaps = past / LEAP_EVERY - past / CENTURY + past / FOUR_CENTURIES;
    COMMON_YEAR * (year - FIRST_YEAR) + (leaps - LEAPS_BEFORE)
}

// The days from the first of January of a year to the first of a month; of month 13, the whole year.
fn before_month(year: u32, month: u32) -> u32
    requires { month < 14 }
    ensures { result ≡ days_before (is_leap year) month }
{
    let before = MONTH_BEFORE[month as usize];
    if FEBRUARY < month {
        return before + leap_day(year);
    }
    before
}

// The year that a day falls in. Four years have at most 1,461 days, so the guess is never late; up to 2554 it is at most a year early.
fn year_of(day: u32) -> u32
    requires { day ≤ 213503 }
    ensures { YearOf day result }
{
    let year = FIRST_YEAR + day * LEAP_EVERY / FOUR_YEARS;
    if before_year(year + 1) <= day {
        return year + 1;
    }
    year
}

// The month that a day of a year, counted from 0, falls in. No month has over 31 days, so the guess is never late; it is at most a month early.
fn month_of(year: u32, in_year: u32) -> u32
    requires { in_year < year_days (is_leap year) }
    ensures { MonthOf (is_leap year) in_year result }
{
    let month = in_year / LONGEST_MONTH + 1;
    if before_month(year, month + 1) <= in_year {
        return month + 1;
    }
    month
}

// Whether a number is a date from 1970-01-01 to 2554-07-21. Most are, and lie before the 29th, where no year is needed to tell.
pub fn is_date(date: u32) -> bool
    ensures { result ≡ known_date date }
{
    let month = date / TWO_DIGITS % TWO_DIGITS;
    let day = date % TWO_DIGITS;
    if date < FIRST_DATE || LAST_DATE < date || month < 1 || DECEMBER < month || day < 1 {
        return false;
    }
    if day <= SHORTEST_MONTH {
        return true;
    }
    let year = date / FOUR_DIGITS;
    day <= before_month(year, month + 1) - before_month(year, month)
}

// A date's day, counted from 1970-01-01; 11 where there is no such date, or it lies outside 1970-01-01 to 2554-07-21.
pub fn day_of(date: u32) -> Result<u32, Refusal>
    ensures { answer_with one_value result ≡ day_of date }
{
    if !is_date(date) {
        return Err(Refusal::NoDate);
    }
    let year = date / FOUR_DIGITS;
    let month = date / TWO_DIGITS % TWO_DIGITS;
    let day = date % TWO_DIGITS;
    Ok(before_year(year) + before_month(year, month) + (day - 1))
}

// The date, YYYYMMDD, of a day counted from 1970-01-01; 11 past 2554-07-21.
pub fn date_of(day: u32) -> Result<u32, Refusal>
    ensures { answer_with one_value result ≡ date_of day }
{
    if LAST_DAY < day {
        return Err(Refusal::NoDate);
    }
    let year = year_of(day);
    let in_year = day - before_year(year);
    let month = month_of(year, in_year);
    let in_month = in_year - before_month(year, month);
    Ok(year * FOUR_DIGITS + month * TWO_DIGITS + (in_month + 1))
}

// The moment at which a day starts, in nanoseconds since the start of 1970-01-01; 11 past 2554-07-21.
pub fn day_start(day: u32) -> Result<u64, Refusal>
    ensures { answer_with one_value result ≡ day_start day }
{
    if LAST_DAY < day {
        return Err(Refusal::NoDate);
    }
    Ok(day as u64 * DAY_NANOSECONDS)
}
