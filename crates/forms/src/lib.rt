// The forms of a filled field, one function each: whether a run of bytes has the form, and what an amount and a feature
// code tell.
#![tactic(auto)]

mod amount;
mod date;
mod decimal;
mod feature;
mod shape;

pub use amount::{cents_of, is_amount};
pub use date::is_date_time;
pub use feature::{code_of, is_feature};
pub use shape::{all_digits, is_bic, is_capitals, is_customer, is_digits, is_mail, is_purpose};
