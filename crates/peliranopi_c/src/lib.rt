// The static library for C and Rust: each call of crate peliranopi under its name, with its clauses. A slice is passed as a pointer and
// then its length (c/peliranopi.h).
#![tactic(auto)]

mod files;
mod lines;
mod numbers;

pub use files::{peliranopi_judge, peliranopi_write_purpose};
pub use lines::{peliranopi_find_field, peliranopi_read_line, peliranopi_write_line};
pub use numbers::{
    peliranopi_check_iban, peliranopi_check_identcode, peliranopi_check_number,
    peliranopi_check_numbers, peliranopi_issue_identcode, peliranopi_issue_number,
    peliranopi_next_carry, peliranopi_read_identcode,
};
