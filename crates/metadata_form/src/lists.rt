// A metadata's five lists in lent memory: symbols, partial, not_found (a word an entry), mappings (two words each: name, number
// of intervals) and intervals (three words each: start date, end date, symbol), those of the mappings one after the other.
ghost use Rattle.std.specs.Prelude.{◌≡◌};
ghost use Rattle.metadata_form.specs.Header.{lengths_of, lent, lent_mut};

use crate::header::Lengths;

// The lists, read.
#[derive(Clone, Copy, Debug)]
pub struct Lists<'a> {
    pub symbols: &'a [u32],
    pub partial: &'a [u32],
    pub not_found: &'a [u32],
    pub mappings: &'a [u32],
    pub intervals: &'a [u32],
}

impl<'a> Lists<'a> {
    // The lengths of the lists, in words.
    pub fn lengths(self) -> Lengths
        ensures { result ≡ lengths_of (lent self.entry) }
    {
        Lengths {
            symbols: self.symbols.len(),
            partial: self.partial.len(),
            not_found: self.not_found.len(),
            mappings: self.mappings.len(),
            intervals: self.intervals.len(),
        }
    }
}

// The lists, written.
#[derive(Drop)]
pub struct ListsMut<'a> {
    pub symbols: &'a mut [u32],
    pub partial: &'a mut [u32],
    pub not_found: &'a mut [u32],
    pub mappings: &'a mut [u32],
    pub intervals: &'a mut [u32],
}

impl<'a> ListsMut<'a> {
    // The same lists, read.
    pub fn shared(&self) -> Lists<'_>
        ensures { lent result ≡ lent_mut self.now }
    {
        Lists {
            symbols: self.symbols,
            partial: self.partial,
            not_found: self.not_found,
            mappings: self.mappings,
            intervals: self.intervals,
        }
    }
}
