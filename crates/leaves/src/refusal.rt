// The refusals (RULES, Numbers the desk lives by). More will come: above this file nobody lists them all.
ghost use Rattle.std.specs.Prelude.{◌≡◌};
ghost use Rattle.leaves.specs.Refusal.{number_of, reason_number, field_number, refused_for};

// Why a stream or a mapping record is damaged.
#[derive(Clone, Copy, Debug, PartialEq, Eq)]
pub enum Reason {
    // 1: fewer than 16 bytes are left.
    Short,
    // 2: the length lies outside 16 to 1,024.
    BadLength,
    // 3: the length goes past the end, or bytes are left over behind the record.
    PastEnd,
    // 4: the body of a symbol mapping is under 16 bytes.
    ShortBody,
}

impl Reason {
    // The number of a reason in the rules.
    pub fn number(self) -> u64
        ensures { result ≡ reason_number self }
    {
        match self {
            Reason::Short => 1,
            Reason::BadLength => 2,
            Reason::PastEnd => 3,
            Reason::ShortBody => 4,
        }
    }
}

// The fields in which two metadata must agree, in the order in which they are compared.
#[derive(Clone, Copy, Debug, PartialEq, Eq)]
pub enum Field {
    Version,
    Dataset,
    StypeIn,
    StypeOut,
    TsOut,
    SymbolCstrLen,
}

impl Field {
    // A field's place in that order, counted from 1.
    pub fn number(self) -> u32
        ensures { result ≡ field_number self }
    {
        match self {
            Field::Version => 1,
            Field::Dataset => 2,
            Field::StypeIn => 3,
            Field::StypeOut => 4,
            Field::TsOut => 5,
            Field::SymbolCstrLen => 6,
        }
    }
}

#[derive(Clone, Copy, Debug, PartialEq, Eq)]
pub enum Refusal {
    // 1: start comes after end.
    Reversed,
    // 2: the outcome would not fit the room.
    NoRoom,
    // 3: symbol number never handed out.
    UnknownSymbol,
    // 4: name over 255 bytes, or not UTF-8.
    BadName,
    // 5: a new name would pass a limit or the room lent for names.
    NoNameRoom,
    // 6: metadata differ, in this field.
    Differ(Field),
    // 7: intervals conflict.
    Conflict,
    // 8: text is not a u32.
    NotNumber,
    // 9: neither side is instrument ID.
    NoInstrumentId,
    // 10: date outside the query range.
    OutsideQuery,
    // 11: no such date, or out of range.
    NoDate,
    // 12: stream list wrong.
    BadStreams,
    // 13: stream or mapping record damaged.
    Damaged {
        stream: u64,
        place: u64,
        reason: Reason,
    },
    // 14: table or name list is not well-formed.
    IllFormed,
    // 15: lent memory has unequal lengths or is over a limit, or a number in use is over its room.
    BadMemory,
}

impl Refusal {
    // The number of a refusal in the rules' table.
    pub fn number(self) -> u32
        ensures { result ≡ number_of self }
    {
        match self {
            Refusal::Reversed => 1,
            Refusal::NoRoom => 2,
            Refusal::UnknownSymbol => 3,
            Refusal::BadName => 4,
            Refusal::NoNameRoom => 5,
            Refusal::Differ(_) => 6,
            Refusal::Conflict => 7,
            Refusal::NotNumber => 8,
            Refusal::NoInstrumentId => 9,
            Refusal::OutsideQuery => 10,
            Refusal::NoDate => 11,
            Refusal::BadStreams => 12,
            Refusal::Damaged { .. } => 13,
            Refusal::IllFormed => 14,
            Refusal::BadMemory => 15,
        }
    }
}

// A record's bytes that stand alone are of no stream: stream and place are 0.
impl From<Reason> for Refusal {
    ghost from_gives = { λ reason refusal. refusal ≡ refused_for reason };

    fn from(reason: Reason) -> Refusal {
        Refusal::Damaged {
            stream: 0,
            place: 0,
            reason,
        }
    }
}
