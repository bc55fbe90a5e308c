// Names (RULES, Names, numbers, days). A name list is lent memory: the names' bytes, one name after another, and where each
// name ends; how many names and how many bytes are in use goes with it. Name n lies from the end of the one before it to its own end.
ghost use Rattle.std.specs.Prelude.{◌≡◌, true, ◌+◌, ◌≤◌, ◌<◌, length, set, slice_get, option_copied, IfOk, OnOk};
ghost use Rattle.theory.specs.Answer.{no_values};
ghost use Rattle.leaves.specs.Refusal.{answer_with};
ghost use Rattle.leaves_utf8.specs.Utf8.{Upto};
ghost use Rattle.leaves_names.specs.Names.{name_start, name_end, names_in, is_name, well_formed, list_fits, found, place_at, least, has_room, check_names, numbering};
ghost use Rattle.leaves_names.specs.Names.{naming, naming_answer, place_values, place_of_name, standing, Ordered};
ghost use Rattle.leaves_names.specs.Room.{named_values, Added, Named};

use leaves::refusal::Refusal;
use leaves_fields::copies::copy;
use leaves_limits::{NAME_BYTES, NAME_SIZE, NAMES};
use leaves_utf8::utf8::{is_plain, is_utf8};

// A name list as it is lent: nothing is known of it.
#[derive(Clone, Copy)]
pub struct NameList<'a> {
    pub bytes: &'a [u8],
    pub ends: &'a [u32],
    // How many names and how many bytes are in use.
    pub names: usize,
    pub name_bytes: usize,
}

// A name list whose names lie one after another within the bytes lent, as every list does that was checked.
#[derive(Clone, Copy)]
pub struct Names<'a> {
    pub list: NameList<'a>,
    pub ghost ordered: { Ordered list.bytes.now list.ends.now list.names },
}

// A name list lent to be written: a name that is new joins it, in the room behind the names and bytes in use.
#[derive(Drop)]
pub struct NameRoom<'a> {
    pub bytes: &'a mut [u8],
    pub ends: &'a mut [u32],
    pub names: usize,
    pub name_bytes: usize,
}

// What becomes of a name: it has this number, or it is new and gets this number.
#[derive(Clone, Copy, Debug, PartialEq, Eq)]
pub enum Naming {
    Old(u32),
    New(u32),
}

// Where a name lies: its first byte, and the first past its end.
#[derive(Clone, Copy, Debug, PartialEq, Eq)]
pub struct NamePlace {
    pub first: usize,
    pub end: usize,
}

// Whether a text is a name: at most 255 bytes of UTF-8.
#[tactic(auto, unfolding(crate::specs::Names::is_name))]
pub fn is_name(text: &[u8]) -> bool
    ensures { result ≡ is_name text.now }
{
    text.len() <= NAME_SIZE && is_utf8(text)
}

// Whether a name lies from `start` to `end`, within the bytes in use. Where all of these are plain, its length alone is asked.
#[tactic(auto, using(crate::specs::NamesLaws::name_plain), unfolding(crate::specs::Names::standing))]
fn stands(used: &[u8], plain: bool, start: usize, end: usize) -> bool
    requires { plain ≡ true → Upto used.now 0 (length used.now) 0x7F }
    ensures { result ≡ standing used.now (length used.now) start end }
{
    if end < start || used.len() < end {
        return false;
    }
    if plain {
        return end - start <= NAME_SIZE;
    }
    is_name(&used[start..end])
}

// Where a name begins: at 0, or where the one before it ends.
#[tactic(auto, using(crate::specs::NamesLaws::start_first, crate::specs::NamesLaws::start_after))]
pub fn name_start(ends: &[u32], number: usize) -> usize
    requires { number ≤ length ends.now }
    ensures { result ≡ name_start ends.now number }
{
    if number == 0 {
        0
    } else {
        ends[number - 1] as usize
    }
}

// Where a name ends.
pub fn name_end(ends: &[u32], number: usize) -> usize
    requires { number < length ends.now }
    ensures { result ≡ name_end ends.now number }
{
    ends[number] as usize
}

// Whether lent memory of so many bytes and places is within the limits, and the numbers in use within the memory; where not, 15.
#[tactic(auto, unfolding(crate::specs::Names::list_fits))]
pub fn list_fits(bytes: usize, places: usize, names: usize, name_bytes: usize) -> bool
    ensures { result ≡ list_fits bytes places names name_bytes }
{
    places <= NAMES && bytes <= NAME_BYTES && names <= places && name_bytes <= bytes
}

// Whether one name more, of so many bytes, passes neither a limit nor the room lent.
#[tactic(auto, using(crate::specs::NamesLaws::room_none, crate::specs::NamesLaws::room_some, crate::specs::NamesLaws::memory))]
pub fn has_room(bytes: usize, places: usize, names: usize, name_bytes: usize, size: usize) -> bool
    requires { list_fits bytes places names name_bytes ≡ true }
    ensures { result ≡ has_room bytes places names name_bytes size }
{
    names < places && size <= bytes - name_bytes
}

impl<'a> NameList<'a> {
    // Whether the memory is within the limits, and the numbers in use within the memory; where not, 15.
    pub fn fits(self) -> bool
        ensures { result ≡ list_fits (length self.entry.bytes.now) (length self.entry.ends.now) self.entry.names self.entry.name_bytes }
    {
        list_fits(
            self.bytes.len(),
            self.ends.len(),
            self.names,
            self.name_bytes,
        )
    }

    // Whether valid names stand one after another, up to the end of the bytes in use.
    pub fn is_formed(self) -> bool
        requires { (self.names ≤ length self.ends.now) × (self.name_bytes ≤ length self.bytes.now) }
        ensures { result ≡ well_formed self.entry.bytes.now self.entry.ends.now self.entry.names self.entry.name_bytes }
    {
        let used = &self.bytes[..self.name_bytes];
        let plain = is_plain(used);
        let mut start = 0;
        for last in &self.ends[..self.names] {
            let end = *last as usize;
            if !stands(used, plain, start, end) {
                return false;
            }
            start = end;
        }
        start == self.name_bytes
    }

    // The list, checked; or 15 or 14.
    #[tactic(auto, using(crate::specs::NamesLaws::memory, crate::specs::NamesLaws::ordered_list), unfolding(crate::specs::Names::check_names))]
    #[inline(always)]
    pub fn check(self) -> Result<Names<'a>, Refusal>
        ensures answer { answer_with no_values result ≡ check_names self.entry.bytes.now self.entry.ends.now self.entry.names self.entry.name_bytes }
        ensures list { IfOk result (λ names. names.list ≡ self.entry) }
        ensures formed { OnOk result
            ((list_fits (length self.entry.bytes.now) (length self.entry.ends.now) self.entry.names self.entry.name_bytes ≡ true)
            × (well_formed self.entry.bytes.now self.entry.ends.now self.entry.names self.entry.name_bytes ≡ true)) }
    {
        if !self.fits() {
            return Err(Refusal::BadMemory);
        }
        if !self.is_formed() {
            return Err(Refusal::IllFormed);
        }
        Ok(Names { list: self })
    }

    // Where a name lies, its first byte and its end; or 15, 14, 3.
    pub fn place_of_name(self, number: u32) -> Result<NamePlace, Refusal>
        ensures { answer_with place_values result
            ≡ place_of_name self.entry.bytes.now self.entry.ends.now self.entry.names self.entry.name_bytes number }
    {
        let names = self.check()?;
        names.place(number).ok_or(Refusal::UnknownSymbol)
    }

    // What becomes of a name: its number, a new one, or 15, 14, 4, 5.
    fn naming(self, text: &[u8]) -> Result<Naming, Refusal>
        ensures { result ≡ naming self.entry.bytes.now self.entry.ends.now self.entry.names self.entry.name_bytes text.now }
    {
        let names = self.check()?;
        if !is_name(text) {
            return Err(Refusal::BadName);
        }
        names.number_for(text)
    }
}

impl<'a> Names<'a> {
    // Where a name lies; none where the number was never handed out.
    #[tactic(auto, unfolding(crate::specs::Names::place_at))]
    fn place(self, number: u32) -> Option<NamePlace>
        ensures { result ≡ place_at self.entry.list.ends.now self.entry.list.names number }
    {
        let n = number as usize;
        if self.list.names <= n {
            return None;
        }
        let first = name_start(self.list.ends, n);
        let end = name_end(self.list.ends, n);
        Some(NamePlace { first, end })
    }

    // The name with a number; none where the number was never handed out.
    pub fn get(self, number: u32) -> Option<&'a [u8]>
        ensures { option_copied result ≡ slice_get (names_in self.entry.list) number }
    {
        let place = self.place(number)?;
        Some(&self.list.bytes[place.first..place.end])
    }

    // The least number of a name equal to the text; none where there is none.
    #[inline(always)]
    pub fn find(self, text: &[u8]) -> Option<usize>
        ensures { result ≡ found text.now (names_in self.entry.list) }
    {
        let mut start = 0;
        for (n, last) in self.list.ends[..self.list.names].iter().enumerate() {
            let end = *last as usize;
            if &self.list.bytes[start..end] == text {
                return Some(n);
            }
            start = end;
        }
        None
    }

    // Whether one name more, of so many bytes, passes neither a limit nor the room lent.
    fn has_room(self, size: usize) -> bool
        requires { list_fits (length self.list.bytes.now) (length self.list.ends.now) self.list.names self.list.name_bytes ≡ true }
        ensures { result
            ≡ has_room (length self.entry.list.bytes.now) (length self.entry.list.ends.now) self.entry.list.names self.entry.list.name_bytes size }
    {
        let list = self.list;
        has_room(
            list.bytes.len(),
            list.ends.len(),
            list.names,
            list.name_bytes,
            size,
        )
    }

    // What becomes of a valid name: it has the least number with equal bytes, else it gets the next new one, or 5.
    #[tactic(auto, using(crate::specs::NamesLaws::memory))]
    #[inline(always)]
    pub fn number_for(self, text: &[u8]) -> Result<Naming, Refusal>
        requires { list_fits (length self.list.bytes.now) (length self.list.ends.now) self.list.names self.list.name_bytes ≡ true }
        ensures { result
            ≡ numbering (length self.entry.list.bytes.now) (length self.entry.list.ends.now) self.entry.list.names self.entry.list.name_bytes
            (length text.now) (least text.now (names_in self.entry.list)) }
    {
        match self.find(text) {
            Some(number) => Ok(Naming::Old(number as u32)),
            None if self.has_room(text.len()) => Ok(Naming::New(self.list.names as u32)),
            None => Err(Refusal::NoNameRoom),
        }
    }
}

impl NameRoom<'_> {
    // The list as it stands.
    pub fn list(&self) -> NameList<'_>
        ensures { (result.bytes.now ≡ self.now.bytes.now) × (result.ends.now ≡ self.now.ends.now)
            × (result.names ≡ self.now.names) × (result.name_bytes ≡ self.now.name_bytes) }
    {
        NameList {
            bytes: self.bytes,
            ends: self.ends,
            names: self.names,
            name_bytes: self.name_bytes,
        }
    }

    // Adds the text as a new name.
    pub fn add(&mut self, text: &[u8])
        requires names_in_bounds { (self.old.names < length self.old.ends.now) × (self.old.name_bytes + length text.now ≤ length self.old.bytes.now)
            × (self.old.name_bytes + length text.now < 4294967296) }
        ensures { Added self.old text.now self.new }
    {
        let end = self.name_bytes + text.len();
        copy(&mut self.bytes[self.name_bytes..end], text);
        self.ends[self.names] = end as u32;
        self.names += 1;
        self.name_bytes = end;
    }

    // The number of a name: the least with equal bytes, else the next new one, which joins the list; or 15, 14, 4, 5.
    pub fn number_of(&mut self, text: &[u8]) -> Result<u32, Refusal>
        ensures answer { answer_with (named_values self.new) result ≡ naming_answer self.old.names self.old.name_bytes text.now
            (naming self.old.bytes.now self.old.ends.now self.old.names self.old.name_bytes text.now) }
        ensures after { Named self.old text.now (naming self.old.bytes.now self.old.ends.now self.old.names self.old.name_bytes text.now) self.new }
    {
        match self.list().naming(text)? {
            Naming::Old(number) => Ok(number),
            Naming::New(number) => {
                self.add(text);
                Ok(number)
            }
        }
    }
}
