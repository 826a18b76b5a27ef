// One line of a file, judged where it starts, and one field of it found.
#![tactic(auto)]

mod find;
mod need;
mod part;
mod read;
mod scan;
mod walk;

pub use find::{Span, find_field};
pub use need::{is_filled, lacks_field};
pub use part::field_in;
pub use read::{Line, judge_line, read_line};
pub use scan::{FILE_LIMIT, text_at};
