// The fields of a line, tested from left to right.
ghost use Rattle.std.specs.Prelude.{◌≡◌, ◌+◌, length};
ghost use Rattle.fields.specs.Profile.{profile};
ghost use Rattle.line.specs.Parts.{name_of, fields_of};
ghost use Rattle.line.specs.Walk.{walk};

use crate::part::part_long;
use crate::read::Text;
use records::{Record, Version};
use refusal::Refusal;

impl Text<'_> {
    // Tests the fields of the line. Beside a field stands the part in front of it.
    pub fn walk_fields(&self, version: Version, kind: Record) -> Result<(), Refusal>
        ensures { result ≡ walk (profile version kind) 1 (self.now.offset + length (name_of self.now.line.now) + 1)
            (name_of self.now.line.now) (fields_of self.now.line.now) }
    {
        let line = self.line;
        let mut number = 1;
        let mut beside = 0;
        let mut start = part_long(line) + 1;
        // Kept: a `for` over `line.split(..)` was tried, and a line takes a tenth more instructions: it asks at each part if it was the last.
        while start <= line.len() {
            let end = start + part_long(&line[start..]);
            let front = &line[beside..start - 1];
            let tested = fields::test_field(version, kind, number, front, &line[start..end]);
            let place = self.offset + start;
            tested.map_err(|why| Refusal::new(why, place))?;
            number += 1;
            beside = start;
            start = end + 1;
        }
        Ok(())
    }
}
