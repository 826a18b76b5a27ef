// The shipment of a line, and the shipment's first parcel, among lines that are known by where they start.
ghost use Rattle.std.specs.Prelude.{◌≡◌, ◌+◌, ◌<◌, ◌≤◌, length, drop};
ghost use Rattle.purpose.specs.Source.{shipment_above, first_parcel};

use crate::at::{is_typed, offset_of};

// The number of the nearest shipment line above the line with this number.
#[tactic(auto, using(crate::proofs::Seeking::ship_here, crate::proofs::Seeking::ship_up, crate::proofs::Seeking::ship_none))]
pub fn shipment_above(file: &[u8], starts: &[u32], number: usize) -> usize
    requires { number ≤ length starts.now }
    ensures { (result ≡ shipment_above file.now starts.now number) × (result ≤ number) }
{
    for i in (0..number).rev() {
        if is_typed(file, offset_of(starts, i), b"030") {
            return i;
        }
    }
    0
}

// Where the first parcel line behind the line with this number starts.
#[tactic(auto, using(crate::proofs::Seeking::parcel_here, crate::proofs::Seeking::parcel_on, crate::proofs::Seeking::parcel_none))]
pub fn first_parcel(file: &[u8], starts: &[u32], shipment: usize) -> usize
    requires { shipment < length starts.now }
    ensures { result ≡ first_parcel file.now (drop (shipment + 1) starts.now) }
{
    for i in shipment + 1..starts.len() {
        let offset = offset_of(starts, i);
        if is_typed(file, offset, b"040") {
            return offset;
        }
    }
    0
}
