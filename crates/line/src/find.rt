// One field of a line at an offset of the file: where it starts, and how long it is.
ghost use Rattle.std.specs.Prelude.{◌≡◌};
ghost use Rattle.fields.specs.Profile.{profile};
ghost use Rattle.line.specs.Find.{field_answer, find_answer};

use crate::{part, read};
use records::{Due, Version};
use refusal::{Reason, Refusal};

// Where a field stands in the file.
#[derive(Clone, Copy, Debug, PartialEq, Eq)]
pub struct Span {
    pub start: usize,
    pub long: usize,
}

// Finds the field with this number of the line that starts here, under the rules of the version with its number.
#[tactic(auto, unfolding(crate::specs::Find::find_answer))]
pub fn find_field(version: u32, file: &[u8], offset: usize, number: usize) -> Result<Span, Refusal>
    ensures { result ≡ find_answer version file.now offset number }
{
    let told = records::version_numbered(version).ok_or(Refusal::new(Reason::UnknownVersion, 0))?;
    find_under(told, file, offset, number)
}

// The same under a version's rules.
#[tactic(auto, unfolding(crate::specs::Find::field_answer, crate::specs::Find::in_line))]
fn find_under(version: Version, file: &[u8], offset: usize, number: usize) -> Result<Span, Refusal>
    ensures { result ≡ field_answer (profile version) file.now offset number }
{
    let not_there = Err(Refusal::new(Reason::NotThere, 0));
    let answer = read::judge_line(version, Due::Any, file, offset);
    // Kept: no `?`, for document 01 names the form of this place, `let else`.
    let Ok(line) = answer else {
        return answer.and(not_there);
    };
    if number == 0 || line.count < number {
        return not_there;
    }
    let text = &file[offset..line.next - 2];
    Ok(Span {
        start: offset + part::start_of(text, number),
        long: part::field_in(text, number).len(),
    })
}
