// Which field of which line, or which two fields, supply the purpose of a cash line.
ghost use Rattle.std.specs.Prelude.{◌≡◌, ◌<◌, ◌≤◌, length, take};
ghost use Rattle.purpose.specs.Source.{is_cash_line, from_shipment, for_feature, source_of};

use crate::at::{field_at, is_filled_at, is_typed, offset_of};
use crate::shipment::{first_parcel, shipment_above};

#[derive(Clone, Copy, Debug, PartialEq, Eq)]
pub enum Source {
    // The field with this number of the line that starts at this offset.
    Field { offset: usize, number: usize },
    // The parcel line's field 1, `/` and the shipment line's field 16.
    Joined { parcel: usize, shipment: usize },
}

// The source for the line with this number; the first words of the list, as many as the file has lines, hold where each starts.
#[tactic(auto, using(crate::proofs::Seeking::past_lines, crate::proofs::Seeking::no_cash_line, crate::proofs::Seeking::cash_line))]
pub fn find_source(file: &[u8], list: &[u32], lines: usize, number: usize) -> Option<Source>
    requires { lines ≤ length list.now }
    ensures { result ≡ source_of file.now (take lines list.now) number }
{
    let starts = &list[..lines];
    if starts.len() <= number || !is_cash_line(file, offset_of(starts, number)) {
        return None;
    }
    Some(for_feature(file, starts, number))
}

// Whether a 060 line with the code 006 starts here.
#[tactic(auto, using(text::proofs::Choices::test_fails, text::proofs::Choices::test_holds, text::proofs::Scans::same_as), unfolding(crate::specs::Source::is_cash_line))]
fn is_cash_line(file: &[u8], offset: usize) -> bool
    ensures { result ≡ is_cash_line file.now offset }
{
    is_typed(file, offset, b"060") && text::equal(field_at(file, offset, 1), b"006")
}

// The source for a cash line: its own field first, then its shipment's.
#[tactic(auto, using(crate::proofs::Seeking::own_field, crate::proofs::Seeking::from_above))]
fn for_feature(file: &[u8], starts: &[u32], number: usize) -> Source
    requires { number < length starts.now }
    ensures { result ≡ for_feature file.now starts.now number }
{
    let offset = offset_of(starts, number);
    if is_filled_at(file, offset, 8) {
        return Source::Field { offset, number: 8 };
    }
    let shipment = shipment_above(file, starts, number);
    let parcel = first_parcel(file, starts, shipment);
    from_shipment(file, offset_of(starts, shipment), parcel)
}

// The source in a shipment: the lines of the shipment and of its first parcel start here.
#[tactic(auto, using(text::proofs::Choices::takes_then, text::proofs::Choices::takes_else), unfolding(crate::specs::Source::from_shipment))]
fn from_shipment(file: &[u8], shipment: usize, parcel: usize) -> Source
    ensures { result ≡ from_shipment file.now shipment parcel }
{
    if is_filled_at(file, shipment, 1) {
        return Source::Field {
            offset: shipment,
            number: 1,
        };
    }
    if is_filled_at(file, shipment, 34) {
        return Source::Field {
            offset: shipment,
            number: 34,
        };
    }
    if is_filled_at(file, shipment, 36) {
        return Source::Field {
            offset: shipment,
            number: 36,
        };
    }
    if is_filled_at(file, parcel, 3) {
        return Source::Field {
            offset: parcel,
            number: 3,
        };
    }
    Source::Joined { parcel, shipment }
}
