// The calls for C and Rust, which crate peliranopi_c exports: each returns the paper's refusal number, 0 for accepted, and leaves place and
// values behind pointers. What an answer does not have is 0.
#![tactic(auto)]

mod files;
mod lines;
mod numbers;
mod tell;

pub use files::{peliranopi_judge, peliranopi_write_purpose};
pub use lines::{peliranopi_find_field, peliranopi_read_line, peliranopi_write_line};
pub use numbers::{
    peliranopi_check_iban, peliranopi_check_identcode, peliranopi_check_number,
    peliranopi_check_numbers, peliranopi_issue_identcode, peliranopi_issue_number,
    peliranopi_next_carry, peliranopi_read_identcode,
};
