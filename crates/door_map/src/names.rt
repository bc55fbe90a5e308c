// The name list at the C door (RULES, Names, numbers, days): the names' bytes one after another, where each ends, and two numbers in use.
ghost use Rattle.std.specs.Prelude.{◌≡◌};
ghost use Rattle.leaves_names.specs.Names.{check_names, naming, naming_answer, bytes_after, ends_after, place_of_name};
ghost use Rattle.door_answers.specs.Answers.{number_in, value_in};

use door_answers::DONE;
use leaves_names::names::{NameList, NameRoom};

// Whether the name list is well-formed: 0, 14 or 15.
#[unsafe(no_mangle)]
pub extern "C" fn desk_check_names(
    bytes: &[u8],
    ends: &[u32],
    names: usize,
    name_bytes: usize,
) -> u32
    ensures { result ≡ number_in (check_names bytes.now ends.now names name_bytes) }
{
    let list = NameList {
        bytes,
        ends,
        names,
        name_bytes,
    };
    match list.check() {
        Ok(_) => DONE,
        Err(refusal) => refusal.number(),
    }
}

// The number of a name, the least with equal bytes, else the next new one, which joins the list: 0, 15, 14, 4 or 5.
#[unsafe(no_mangle)]
pub extern "C" fn desk_number_of(
    bytes: &mut [u8],
    ends: &mut [u32],
    names: &mut usize,
    name_bytes: &mut usize,
    name: &[u8],
    symbol: &mut u32,
) -> u32
    ensures value { result ≡ number_in (naming_answer names.old name_bytes.old name.now (naming bytes.old ends.old names.old name_bytes.old name.now)) }
    ensures symbol_after { symbol.new ≡ value_in symbol.old 0
        (naming_answer names.old name_bytes.old name.now
        (naming bytes.old ends.old names.old name_bytes.old name.now)) }
    ensures names_after { names.new ≡ value_in names.old 1
        (naming_answer names.old name_bytes.old name.now
        (naming bytes.old ends.old names.old name_bytes.old name.now)) }
    ensures name_bytes_after { name_bytes.new ≡ value_in name_bytes.old 2
        (naming_answer names.old name_bytes.old name.now
        (naming bytes.old ends.old names.old name_bytes.old name.now)) }
    ensures bytes_after { bytes.new ≡ bytes_after bytes.old name_bytes.old name.now
        (naming bytes.old ends.old names.old name_bytes.old name.now) }
    ensures ends_after { ends.new ≡ ends_after ends.old names.old name_bytes.old name.now
        (naming bytes.old ends.old names.old name_bytes.old name.now) }
{
    let mut room = NameRoom {
        bytes,
        ends,
        names: *names,
        name_bytes: *name_bytes,
    };
    match room.number_of(name) {
        Ok(number) => {
            *symbol = number;
            *names = room.names;
            *name_bytes = room.name_bytes;
            DONE
        }
        Err(refusal) => refusal.number(),
    }
}

// Where a name lies, its first byte and its end: 0, 15, 14 or 3.
#[unsafe(no_mangle)]
pub extern "C" fn desk_place_of_name(
    bytes: &[u8],
    ends: &[u32],
    names: usize,
    name_bytes: usize,
    symbol: u32,
    first: &mut usize,
    end: &mut usize,
) -> u32
    ensures value { result ≡ number_in (place_of_name bytes.now ends.now names name_bytes symbol) }
    ensures first_after { first.new ≡ value_in first.old 0 (place_of_name bytes.now ends.now names name_bytes symbol) }
    ensures end_after { end.new ≡ value_in end.old 1 (place_of_name bytes.now ends.now names name_bytes symbol) }
{
    let list = NameList {
        bytes,
        ends,
        names,
        name_bytes,
    };
    match list.place_of_name(symbol) {
        Ok(place) => {
            *first = place.first;
            *end = place.end;
            DONE
        }
        Err(refusal) => refusal.number(),
    }
}
