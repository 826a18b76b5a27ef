// The check digit of the Post's identcodes, by its manual: a code checked, read as its parts, and issued.
#![tactic(auto)]

mod identcode;

pub use identcode::{Part, Parts, check_identcode, issue_identcode, read_identcode};
