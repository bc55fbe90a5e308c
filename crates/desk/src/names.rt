// The name list, number text, UTF-8, dates and days (RULES, Names, numbers, days).
ghost use Rattle.std.specs.Prelude.{◌≡◌};
ghost use Rattle.leaves_names.specs.Names.{check_names, naming, naming_answer, bytes_after, ends_after, place_of_name};
ghost use Rattle.door_answers.specs.Answers.{number_in, value_in, utf8_answer};
ghost use Rattle.leaves_text.specs.NumberText.{number_text};
ghost use Rattle.leaves_utf8.specs.Utf8.{is_utf8};
ghost use Rattle.leaves_days.specs.Days.{day_of, date_of, day_start};

// Whether the name list is well-formed: 0, 14 or 15.
#[unsafe(no_mangle)]
pub extern "C" fn desk_check_names(
    bytes: &[u8],
    ends: &[u32],
    names: usize,
    name_bytes: usize,
) -> u32
    ensures { result ≡ number_in (check_names bytes.now ends.now names name_bytes) }
{
    door_map::names::desk_check_names(bytes, ends, names, name_bytes)
}

// The number of a name, the least with equal bytes, else the next new one, which joins the list: 0, 15, 14, 4 or 5.
#[unsafe(no_mangle)]
pub extern "C" fn desk_number_of(
    bytes: &mut [u8],
    ends: &mut [u32],
    names: &mut usize,
    name_bytes: &mut usize,
    name: &[u8],
    symbol: &mut u32,
) -> u32
    ensures value { result ≡ number_in (naming_answer names.old name_bytes.old name.now (naming bytes.old ends.old names.old name_bytes.old name.now)) }
    ensures symbol_after { symbol.new ≡ value_in symbol.old 0
        (naming_answer names.old name_bytes.old name.now
        (naming bytes.old ends.old names.old name_bytes.old name.now)) }
    ensures names_after { names.new ≡ value_in names.old 1
        (naming_answer names.old name_bytes.old name.now
        (naming bytes.old ends.old names.old name_bytes.old name.now)) }
    ensures name_bytes_after { name_bytes.new ≡ value_in name_bytes.old 2
        (naming_answer names.old name_bytes.old name.now
        (naming bytes.old ends.old names.old name_bytes.old name.now)) }
    ensures bytes_after { bytes.new ≡ bytes_after bytes.old name_bytes.old name.now
        (naming bytes.old ends.old names.old name_bytes.old name.now) }
    ensures ends_after { ends.new ≡ ends_after ends.old names.old name_bytes.old name.now
        (naming bytes.old ends.old names.old name_bytes.old name.now) }
{
    door_map::names::desk_number_of(bytes, ends, names, name_bytes, name, symbol)
}

// Where a name lies, its first byte and its end: 0, 15, 14 or 3.
#[unsafe(no_mangle)]
pub extern "C" fn desk_place_of_name(
    bytes: &[u8],
    ends: &[u32],
    names: usize,
    name_bytes: usize,
    symbol: u32,
    first: &mut usize,
    end: &mut usize,
) -> u32
    ensures value { result ≡ number_in (place_of_name bytes.now ends.now names name_bytes symbol) }
    ensures first_after { first.new ≡ value_in first.old 0 (place_of_name bytes.now ends.now names name_bytes symbol) }
    ensures end_after { end.new ≡ value_in end.old 1 (place_of_name bytes.now ends.now names name_bytes symbol) }
{
    door_map::names::desk_place_of_name(bytes, ends, names, name_bytes, symbol, first, end)
}

// The number that a text says: 0 or 8.
#[unsafe(no_mangle)]
pub extern "C" fn desk_number_text(text: &[u8], value: &mut u32) -> u32
    ensures value { result ≡ number_in (number_text text.now) }
    ensures value_after { value.new ≡ value_in value.old 0 (number_text text.now) }
{
    door_map::text::desk_number_text(text, value)
}

// Whether a text of any length is UTF-8: 0 or 4.
#[unsafe(no_mangle)]
pub extern "C" fn desk_utf8(text: &[u8]) -> u32
    ensures { result ≡ number_in (utf8_answer (is_utf8 text.now)) }
{
    door_map::text::desk_utf8(text)
}

// The day of a date, YYYYMMDD, since 1970-01-01: 0 or 11.
#[unsafe(no_mangle)]
pub extern "C" fn desk_day_of(date: u32, day: &mut u32) -> u32
    ensures value { result ≡ number_in (day_of date) }
    ensures day_after { day.new ≡ value_in day.old 0 (day_of date) }
{
    door_map::days::desk_day_of(date, day)
}

// The date, YYYYMMDD, of a day since 1970-01-01: 0 or 11.
#[unsafe(no_mangle)]
pub extern "C" fn desk_date_of(day: u32, date: &mut u32) -> u32
    ensures value { result ≡ number_in (date_of day) }
    ensures date_after { date.new ≡ value_in date.old 0 (date_of day) }
{
    door_map::days::desk_date_of(day, date)
}

// The moment, in nanoseconds, at which a day since 1970-01-01 starts: 0 or 11.
#[unsafe(no_mangle)]
pub extern "C" fn desk_day_start(day: u32, moment: &mut u64) -> u32
    ensures value { result ≡ number_in (day_start day) }
    ensures moment_after { moment.new ≡ value_in moment.old 0 (day_start day) }
{
    door_map::days::desk_day_start(day, moment)
}
