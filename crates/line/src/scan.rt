// Where a line ends.
ghost use Rattle.std.specs.Prelude.{◌≡◌, ◌≤◌, length, IfOk};
ghost use Rattle.line.specs.Line.{text_at, text_answer, file_limit};

use refusal::{Reason, Refusal};

// The most bytes that a file may have.
pub const FILE_LIMIT: usize = 65535;

// Finds where the text of the line that starts here ends.
#[tactic(auto, using(crate::proofs::Lines::text_rules), unfolding(crate::specs::Line::text_answer))]
pub fn find_text(file: &[u8], offset: usize) -> Result<usize, Refusal>
    ensures answer { result ≡ text_answer file.now offset }
    ensures inside { IfOk result (λ end. (offset ≤ end) × (end ≤ length file.now) × (length file.now ≤ file_limit)) }
{
    let n = file.len();
    if FILE_LIMIT < n {
        return Err(Refusal::new(Reason::FileTooLong, FILE_LIMIT));
    }
    if n < offset {
        return Err(Refusal::new(Reason::NoLineEnd, n));
    }
    let end = offset + text_at(file, offset).len();
    if !file[end..].starts_with(b"\r\n") {
        return Err(Refusal::new(Reason::NoLineEnd, end));
    }
    Ok(end)
}

// The text of the line that starts here: the bytes in front of the first that is no text byte. No bytes past the file.
pub fn text_at(file: &[u8], offset: usize) -> &[u8]
    ensures { result.now ≡ text_at file.now offset }
{
    let rest = file.get(offset..).unwrap_or(&[]);
    let long = rest
        .iter()
        .position(|&b| !text::is_text_byte(b))
        .unwrap_or(rest.len());
    &rest[..long]
}
