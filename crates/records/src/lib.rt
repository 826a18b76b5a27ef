// The six records and the two versions of a file: what names each, how many fields a record has, and which may follow which.
#![tactic(auto)]

mod record;
mod version;

pub use record::{Due, Record, count_fits, may_come, may_end, record_named, row};
pub use version::{Version, is_version, version_numbered};
