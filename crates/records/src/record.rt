// The six records: their types, how many fields each has, and which may follow which.
ghost use Rattle.std.specs.Prelude.{◌≡◌};
ghost use Rattle.records.specs.Record.{row_of, named, count_fits, may_follow, may_come, may_end};

// Each has the number that its type is written as.
#[derive(Clone, Copy, Debug, PartialEq, Eq)]
pub enum Record {
    Header = 10,
    Sender = 20,
    Shipment = 30,
    Parcel = 40,
    Product = 50,
    Feature = 60,
}

// Which record is due: any, where a line is judged alone; at a file's start the header; else one that may follow.
#[derive(Clone, Copy, Debug, PartialEq, Eq)]
pub enum Due {
    Any,
    First,
    After(Record),
}

// The record that a type names.
#[tactic(auto, using(crate::proofs::Records::none_named), unfolding(crate::specs::Record::named))]
pub fn record_named(name: &[u8]) -> Option<Record>
    ensures { result ≡ named name.now }
{
    match name {
        b"010" => Some(Record::Header),
        b"020" => Some(Record::Sender),
        b"030" => Some(Record::Shipment),
        b"040" => Some(Record::Parcel),
        b"050" => Some(Record::Product),
        b"060" => Some(Record::Feature),
        _ => None,
    }
}

// Whether a record may have so many fields.
pub fn count_fits(kind: Record, count: usize) -> bool
    ensures { result ≡ count_fits kind count }
{
    match kind {
        Record::Header => count == 10,
        Record::Sender => count == 16,
        Record::Shipment => count == 40,
        Record::Parcel => matches!(count, 3..=24),
        Record::Product => matches!(count, 1..=24),
        Record::Feature => count == 10,
    }
}

// Whether the record may come where this one is due.
#[tactic(auto, unfolding(crate::specs::Record::may_come))]
pub fn may_come(due: Due, kind: Record) -> bool
    ensures { result ≡ may_come due kind }
{
    match due {
        Due::Any => true,
        Due::First => kind == Record::Header,
        Due::After(before) => may_follow(before, kind),
    }
}

// Whether the file may end where this record is due.
#[tactic(auto, unfolding(crate::specs::Record::may_end))]
pub fn may_end(due: Due) -> bool
    ensures { result ≡ may_end due }
{
    match due {
        Due::Any => true,
        Due::First => false,
        Due::After(before) => matches!(before, Record::Product | Record::Feature),
    }
}

// The record's row in the tables, counted from 0.
pub fn row(kind: Record) -> usize
    ensures { result ≡ row_of kind }
{
    kind as usize / 10 - 1
}

// Whether the record may follow this one.
#[tactic(auto, unfolding(crate::specs::Record::may_follow))]
fn may_follow(before: Record, kind: Record) -> bool
    ensures { result ≡ may_follow before kind }
{
    match before {
        Record::Header => kind == Record::Sender,
        Record::Sender => kind == Record::Shipment,
        Record::Shipment => kind == Record::Parcel,
        Record::Parcel => matches!(kind, Record::Parcel | Record::Product),
        Record::Product | Record::Feature => {
            matches!(kind, Record::Feature | Record::Shipment | Record::Sender)
        }
    }
}
