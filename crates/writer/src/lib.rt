// One line written into an output: the reader's rules asked before, the reader's own line behind.
#![tactic(auto)]

mod put;
mod run;
mod test;
mod write;

pub use write::write_line;
