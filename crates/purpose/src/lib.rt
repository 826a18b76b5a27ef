// The payment purpose of a cash line: the field, or the two, that supply its text, and the first 35 bytes of it written.
#![tactic(auto)]

mod at;
mod cut;
mod shipment;
mod source;
mod write;

pub use write::write_purpose;
