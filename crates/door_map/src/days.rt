// Dates and days at the C door (RULES, Names, numbers, days).
ghost use Rattle.std.specs.Prelude.{◌≡◌};
ghost use Rattle.leaves_days.specs.Days.{day_of, date_of, day_start};
ghost use Rattle.door_answers.specs.Answers.{number_in, value_in};

use door_answers::DONE;

// The day of a date, YYYYMMDD, since 1970-01-01: 0 or 11.
#[unsafe(no_mangle)]
pub extern "C" fn desk_day_of(date: u32, day: &mut u32) -> u32
    ensures value { result ≡ number_in (day_of date) }
    ensures day_after { day.new ≡ value_in day.old 0 (day_of date) }
{
    match leaves_days::days::day_of(date) {
        Ok(n) => {
            *day = n;
            DONE
        }
        Err(refusal) => refusal.number(),
    }
}

// The date, YYYYMMDD, of a day since 1970-01-01: 0 or 11.
#[unsafe(no_mangle)]
pub extern "C" fn desk_date_of(day: u32, date: &mut u32) -> u32
    ensures value { result ≡ number_in (date_of day) }
    ensures date_after { date.new ≡ value_in date.old 0 (date_of day) }
{
    match leaves_days::days::date_of(day) {
        Ok(n) => {
            *date = n;
            DONE
        }
        Err(refusal) => refusal.number(),
    }
}

// The moment, in nanoseconds, at which a day since 1970-01-01 starts: 0 or 11.
#[unsafe(no_mangle)]
pub extern "C" fn desk_day_start(day: u32, moment: &mut u64) -> u32
    ensures value { result ≡ number_in (day_start day) }
    ensures moment_after { moment.new ≡ value_in moment.old 0 (day_start day) }
{
    match leaves_days::days::day_start(day) {
        Ok(n) => {
            *moment = n;
            DONE
        }
        Err(refusal) => refusal.number(),
    }
}
