// A whole file: its lines in order, contacts where the lent countries ask for them, no identcode twice, the list of its lines, its
// parcels and its cash.
#![tactic(auto)]

mod cash;
mod contact;
mod identcode;
mod list;
mod step;
mod version;
mod whole;

pub use list::clear;
pub use whole::{Totals, judge};
