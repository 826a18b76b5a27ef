// A day's tracking numbers at once (document 02, request 6). They stand in one buffer, 15 bytes after 15 bytes, and each has a byte for its
// answer in another. The table of steps is laid out once for all of them.
ghost use Rattle.std.specs.Prelude.{◌≡◌, ◌≤◌, length};
ghost use Rattle.text.specs.Placed.{written};
ghost use Rattle.refusal.specs.Table.{number_told, verdict_on};
ghost use Rattle.check_characters.specs.Day.{how_many, day_answers, ChecksDay};

use crate::number;
use crate::number::Kind;
use crate::steps::Steps;
use refusal::{Reason, Refusal};

// Checks a day's tracking numbers, and writes for each the byte 0, 17 or 18 that it would be answered alone.
#[tactic(auto, using(crate::proofs::Days::day_cases), unfolding(crate::specs::Day::answers_after))]
pub fn check_numbers(numbers: &[u8], answers: &mut [u8]) -> Result<usize, Refusal>
    ensures { ChecksDay numbers.now answers.old result answers.new }
{
    if numbers.len() % 15 != 0 {
        return Err(Refusal::new(Reason::WrongLength, 0));
    }
    let n = numbers.len() / 15;
    if answers.len() < n {
        return Err(Refusal::new(Reason::OutputTooShort, 0));
    }
    check_each(numbers, answers);
    Ok(text::count_of(0, &answers[..n]))
}

// Writes the answers of numbers that have a byte each.
fn check_each(numbers: &[u8], answers: &mut [u8])
    requires { how_many numbers.now ≤ length answers.old }
    ensures { answers.new ≡ written answers.old 0 (day_answers numbers.now) }
{
    let steps = Steps::laid_out();
    for (i, number) in numbers.chunks_exact(15).enumerate() {
        answers[i] = answer_byte(number::check_as(&steps, Kind::Tracking, number));
    }
}

// The byte of an answer: 0, or the refusal's number.
// Kept: no From says this conversion, since neither Result nor u8 is a type of this crate.
fn answer_byte(answer: Result<Kind, Refusal>) -> u8
    ensures { result ≡ number_told (verdict_on answer) }
{
    match answer {
        Ok(_) => 0,
        Err(refusal) => refusal::number(refusal.why) as u8,
    }
}
