// The returns bench's scans: tracking numbers that stand one a line in a text, answered up to 1,024 at a time. A line ends with a line feed;
// a carriage return in front of it belongs to the line's end, as scanners send both. What stands behind the last line feed waits for the
// rest of its line.
#![tactic(auto)]

mod tally;

ghost use Rattle.std.specs.Prelude.{◌≡◌, ◌+◌, ◌*◌, ◌/◌, ◌≤◌, length};
ghost use Rattle.text.specs.Placed.{placed};
ghost use Rattle.scans.specs.Scans.{number_on, AnswersLines, printed_one, printed, Prints, Keeps};
ghost use Rattle.scans.specs.Laying.{is_number, laid, overruled, Lays};

pub use tally::{Tally, count_answers};

// How many lines were answered, and where the text goes on behind them.
#[derive(Clone, Copy, Debug, PartialEq, Eq)]
pub struct Answered {
    pub lines: usize,
    pub next: usize,
}

// Answers the whole lines at a text's front, as many as there are answer bytes, but no more than 1,024: for each the byte 0, 16, 17 or 18.
#[tactic(auto, using(crate::proofs::Answering::checked_long))]
pub fn answer_lines(text: &[u8], answers: &mut [u8]) -> Answered
    ensures { AnswersLines text.now answers.old result answers.new }
{
    // Kept: `check_numbers` takes the numbers one behind the other, and so the marks stand apart from them.
    let mut numbers = [0u8; 15360];
    let mut marks = [false; 1024];
    let room = answers.len().min(1024);
    let answered = lay_out(text, room, &mut numbers, &mut marks);
    let n = answered.lines;
    // Never refused: these are n numbers, and there are at least n answer bytes.
    let _ = check_characters::check_numbers(&numbers[..15 * n], answers);
    overrule(&marks[..n], answers);
    answered
}

// Prints answers, one a line, at the output's front, and answers how many bytes they take. An answer has two digits at most: where the
// output has not three bytes for each, nothing is printed.
#[tactic(auto, using(crate::proofs::Printing::prints_none, crate::proofs::Printing::prints_all))]
pub fn print_answers(answers: &[u8], output: &mut [u8]) -> usize
    ensures { Prints answers.now output.old result output.new }
{
    if output.len() / 3 < answers.len() {
        return 0;
    }
    print_each(answers, output)
}

// Moves what waits for the rest of its line, the bytes from a place to another, to the buffer's front, and answers how many there are. Of a
// line of more than 17 bytes only these stay: it is too long whatever follows.
#[tactic(auto, using(crate::proofs::Keeping::keeps))]
pub fn keep(buffer: &mut [u8], from: usize, to: usize) -> usize
    ensures { Keeps buffer.old from to result buffer.new }
{
    let start = from.min(buffer.len());
    let wanted = to.saturating_sub(from).min(17);
    let n = wanted.min(buffer.len() - start);
    buffer.copy_within(start..start + n, 0);
    n
}

// Lays the numbers of the text's first lines out, 15 bytes after 15 bytes, and marks the lines that have one.
#[tactic(auto, using(crate::proofs::Laying::laying_none, crate::proofs::Laying::laying_full))]
fn lay_out(text: &[u8], room: usize, numbers: &mut [u8], marks: &mut [bool]) -> Answered
    requires { (15 * room ≤ length numbers.old) × (room ≤ length marks.old) }
    ensures { Lays text.now room result numbers.new marks.new }
{
    let mut at: usize = 0;
    for i in 0..room {
        let end = text::line_feed(text, at);
        if end == text.len() {
            return Answered { lines: i, next: at };
        }
        marks[i] = lay(&text[at..end], 15 * i, numbers);
        at = end + 1;
    }
    Answered {
        lines: room,
        next: at,
    }
}

// Lays one line's number at its place: whether it has one.
fn lay(line: &[u8], place: usize, numbers: &mut [u8]) -> bool
    ensures is { result ≡ is_number line.now }
    ensures lies { numbers.new ≡ laid numbers.old place line.now }
{
    let number = number_on(line);
    if number.len() != 15 {
        return false;
    }
    text::place(numbers, place, number);
    true
}

// A line without the carriage return at its end.
#[tactic(auto, using(crate::proofs::Endings::with_return, crate::proofs::Endings::empty_line, crate::proofs::Endings::without_return))]
fn number_on(line: &[u8]) -> &[u8]
    ensures { result.now ≡ number_on line.now }
{
    match line {
        [number @ .., end] if *end == b'\r' => number,
        _ => line,
    }
}

// Answers 16 for each line that has no number.
#[tactic(auto, using(crate::proofs::Overruling::overruled_on, crate::proofs::Overruling::overruled_past))]
fn overrule(marks: &[bool], answers: &mut [u8])
    requires { length marks.now ≤ length answers.old }
    ensures { answers.new ≡ overruled marks.now answers.old }
{
    for (i, is_number) in marks.iter().enumerate() {
        if !*is_number {
            answers[i] = 16;
        }
    }
}

// Prints answers that have room.
#[tactic(auto, using(crate::proofs::Printing::printings))]
fn print_each(answers: &[u8], output: &mut [u8]) -> usize
    requires { length answers.now ≤ length output.old / 3 }
    ensures { (result ≡ length (printed answers.now)) × (result ≤ length output.new)
        × (output.new ≡ placed output.old 0 (printed answers.now)) }
{
    let mut fill: usize = 0;
    for answer in answers {
        fill = print_one(*answer, output, fill);
    }
    fill
}

// Prints one answer behind the fill, and answers the fill behind it.
// Kept: `printed_one` gives an answer of 100 and more two digits too, and a byte's Display gives it three.
fn print_one(answer: u8, output: &mut [u8], fill: usize) -> usize
    requires { fill + 3 ≤ length output.old }
    ensures { (result ≡ fill + length (printed_one answer)) × (result ≤ fill + 3)
        × (output.new ≡ placed output.old fill (printed_one answer)) }
{
    if answer < 10 {
        text::place(output, fill, &[b'0' + answer, b'\n']);
        return fill + 2;
    }
    text::place(
        output,
        fill,
        &[b'0' + answer / 10, b'0' + answer % 10, b'\n'],
    );
    fill + 3
}
