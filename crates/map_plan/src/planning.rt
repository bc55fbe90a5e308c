// What a mapping call asks (RULES, The map over time and Merging records): the table's check, the name list and the record are
// judged in the rules' order, before anything is stored.
ghost use Rattle.std.specs.Prelude.{◌≡◌, [], true, length};
ghost use Rattle.leaves.specs.Frame.{mapped_in, name_in};
ghost use Rattle.leaves.specs.Refusal.{answer_with};
ghost use Rattle.theory.specs.Answer.{answer, no_values};
ghost use Rattle.leaves_names.specs.Names.{list_fits};
ghost use Rattle.map_plan.specs.Wanted.{wanted, judged_by, plan_of, number_in, is_new, Ready};

use leaves::frame::read_mapping;
use leaves::refusal::Refusal;
use leaves_names::names::{NameList, Names, Naming, is_name};

// A symbol to be stored for an instrument: a name of the record, by what becomes of it. A new name joins the list.
#[derive(Clone, Copy)]
pub struct Store<'a> {
    pub instrument: u32,
    pub start: u64,
    pub end: u64,
    pub name: &'a [u8],
    pub naming: Naming,
}

impl Store<'_> {
    // The name's number.
    pub fn number(self) -> u32
        ensures { result ≡ number_in self.entry.naming }
    {
        match self.naming {
            Naming::Old(number) | Naming::New(number) => number,
        }
    }

    // Whether the name joins the list.
    pub fn is_new(self) -> bool
        ensures { result ≡ is_new self.entry.naming }
    {
        matches!(self.naming, Naming::New(_))
    }
}

// What a record asks of a well-formed name list and a table, or nothing: 13, 4; over time 1, and start = end is done; 5.
fn plan_record<'a>(
    names: Names<'_>,
    rec: &'a [u8],
    over_time: bool,
) -> Result<Option<Store<'a>>, Refusal>
    requires { list_fits (length names.list.bytes.now) (length names.list.ends.now) names.list.names names.list.name_bytes ≡ true }
    ensures result_value { plan_of result ≡ wanted over_time names.entry.list.bytes.now names.entry.list.ends.now names.entry.list.names names.entry.list.name_bytes (name_in rec.now) (mapped_in rec.now) }
    ensures ready { Ready over_time (answer 0 []) names.entry.list.bytes.now names.entry.list.ends.now names.entry.list.names names.entry.list.name_bytes rec.now result }
{
    let Some(mapping) = read_mapping(rec)? else {
        return Ok(None);
    };
    let name = &rec[mapping.name_from..mapping.name_to];
    if !is_name(name) {
        return Err(Refusal::BadName);
    }
    if over_time && mapping.end < mapping.start {
        return Err(Refusal::Reversed);
    }
    if over_time && mapping.start == mapping.end {
        return Ok(None);
    }
    let naming = names.number_for(name)?;
    Ok(Some(Store {
        instrument: mapping.instrument,
        start: mapping.start,
        end: mapping.end,
        name,
        naming,
    }))
}

// What a call comes to before the room of the table is judged, where the table's check says `checked`: 15, 14, then as above.
#[inline(always)]
pub fn judge<'a>(
    checked: Result<(), Refusal>,
    list: NameList<'_>,
    rec: &'a [u8],
    over_time: bool,
) -> Result<Option<Store<'a>>, Refusal>
    ensures result_value { plan_of result ≡ judged_by (answer_with no_values checked) list.entry.bytes.now list.entry.ends.now list.entry.names list.entry.name_bytes
        (wanted over_time list.entry.bytes.now list.entry.ends.now list.entry.names list.entry.name_bytes (name_in rec.now) (mapped_in rec.now)) }
    ensures ready { Ready over_time (answer_with no_values checked) list.entry.bytes.now list.entry.ends.now list.entry.names list.entry.name_bytes rec.now result }
{
    if !list.fits() {
        return Err(Refusal::BadMemory);
    }
    checked?;
    let names = list.check()?;
    plan_record(names, rec, over_time)
}
