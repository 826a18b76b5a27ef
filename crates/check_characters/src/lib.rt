// Check characters: DPD numbers by ISO/IEC 7064 MOD 37,36 and IBANs by ISO 13616 with MOD 97-10.
#![tactic(auto)]

mod answer;
mod carry;
mod day;
mod iban;
mod number;
mod remainder;
mod steps;
mod symbol;

pub use answer::issue;
pub use carry::{check_of, next_carry};
pub use day::check_numbers;
pub use iban::check_iban;
pub use number::{Kind, check_number, issue_number};
