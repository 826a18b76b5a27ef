// The rules of the fields of each record, by version: one test for every field.
#![tactic(auto)]

mod field;
mod form;
mod table;

pub use field::test_field;
pub use form::is_cash;
