// One line at an offset of the file: its end, its record, its fields, in the order of the refusals.
ghost use Rattle.std.specs.Prelude.{◌≡◌, ◌+◌, ◌≤◌, length};
ghost use Rattle.fields.specs.Profile.{profile};
ghost use Rattle.line.specs.Line.{of_text, of_kind, file_limit, line_answer, read_answer};

use crate::part::field_in;
use crate::{need, scan};
use records::{Due, Record, Version};
use refusal::{Reason, Refusal};

#[derive(Clone, Copy, Debug, PartialEq, Eq)]
pub struct Line {
    pub kind: Record,
    pub count: usize,
    // Where the next line starts.
    pub next: usize,
}

// The text of a line, and where in the file it starts.
#[derive(Drop)]
pub struct Text<'a> {
    pub offset: usize,
    pub line: &'a [u8],
    ghost within: { offset + length line.now ≤ file_limit },
}

// Judges the line that starts here, alone, under the rules of the version with this number.
#[tactic(auto, unfolding(crate::specs::Line::read_answer))]
pub fn read_line(version: u32, file: &[u8], offset: usize) -> Result<Line, Refusal>
    ensures { result ≡ read_answer version file.now offset }
{
    let told = records::version_numbered(version).ok_or(Refusal::new(Reason::UnknownVersion, 0))?;
    judge_line(told, Due::Any, file, offset)
}

// Judges the line that starts here, under a version's rules and where this record is due.
#[tactic(auto, unfolding(crate::specs::Line::line_answer))]
pub fn judge_line(version: Version, due: Due, file: &[u8], offset: usize) -> Result<Line, Refusal>
    ensures { result ≡ line_answer (record { rules = profile version; due = due }) file.now offset }
{
    let end = scan::find_text(file, offset)?;
    let text = Text {
        offset,
        line: &file[offset..end],
    };
    text.judge(version, due)
}

impl Text<'_> {
    // Judges the text where this record is due.
    #[tactic(auto, unfolding(crate::specs::Line::of_text, crate::specs::Line::of_named))]
    fn judge(&self, version: Version, due: Due) -> Result<Line, Refusal>
        ensures { result ≡ of_text (record { rules = profile version; due = due }) self.now.offset self.now.line.now }
    {
        let unknown = Refusal::new(Reason::UnknownRecord, self.offset);
        let kind = records::record_named(field_in(self.line, 0)).ok_or(unknown)?;
        if !records::may_come(due, kind) {
            return Err(Refusal::new(Reason::OutOfOrder, self.offset));
        }
        self.judge_as(version, kind)
    }

    // Judges the text as one of this record, which may come.
    #[tactic(auto, using(crate::proofs::Parts::fields_long), unfolding(crate::specs::Line::of_kind, crate::specs::Line::after_walk))]
    fn judge_as(&self, version: Version, kind: Record) -> Result<Line, Refusal>
        ensures { result ≡ of_kind (profile version) kind self.now.offset self.now.line.now }
    {
        // Each field stands behind a semicolon.
        let count = text::count_of(b';', self.line);
        if !records::count_fits(kind, count) {
            return Err(Refusal::new(Reason::FieldCount, self.offset));
        }
        self.walk_fields(version, kind)?;
        if need::lacks_field(kind, self.line) {
            return Err(Refusal::new(Reason::FeatureLacks, self.offset));
        }
        Ok(Line {
            kind,
            count,
            next: self.offset + self.line.len() + 2,
        })
    }
}
