// The refusal table: why an entry point refuses what it was given, and at which place. Every answer that refuses holds one `Refusal`.
#![tactic(auto)]

ghost use Rattle.std.specs.Prelude.{◌≡◌};
ghost use Rattle.refusal.specs.Table.{because, number_of};

// Each reason has its number in the paper's table.
#[derive(Clone, Copy, Debug, PartialEq, Eq)]
pub enum Reason {
    FileTooLong = 1,
    NoLineEnd = 2,
    UnknownRecord = 3,
    OutOfOrder = 4,
    FieldCount = 5,
    FieldTooLong = 6,
    FieldEmpty = 7,
    FieldForm = 8,
    FeatureLacks = 9,
    IdentcodeRepeated = 10,
    ListFull = 11,
    FileEnds = 12,
    OutputTooShort = 13,
    FieldEnds = 14,
    NotThere = 15,
    WrongLength = 16,
    WrongSymbol = 17,
    WrongCheck = 18,
    ContactMissing = 19,
    CountriesOdd = 20,
    UnknownVersion = 22,
}

#[derive(Clone, Copy, Debug, PartialEq, Eq)]
pub struct Refusal {
    pub why: Reason,
    pub place: usize,
}

impl Refusal {
    // For this reason, at this place.
    pub fn new(why: Reason, place: usize) -> Refusal
        ensures { result ≡ because why place }
    {
        Refusal { why, place }
    }
}

// The number of a reason in the paper's table.
pub fn number(why: Reason) -> u32
    ensures { result ≡ number_of why }
{
    why as u32
}
