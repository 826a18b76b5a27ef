// The calls on DPD numbers and their carry, IBANs and identcodes.
ghost use Rattle.std.specs.Prelude.{◌≡◌};
ghost use Rattle.refusal.specs.Table.{verdict_on};
ghost use Rattle.peliranopi.specs.Told.{value_told, parts_told, as_numbers};
ghost use Rattle.peliranopi.specs.Calls.{Tells, NumberTells, IssueTells, CarryTells, IbanTells, IdentcodeTells, PartsTells};
ghost use Rattle.peliranopi.specs.Calls.{DayTells, IssueIdentcodeTells};

use crate::tell;
use check_digits::Parts;
use refusal::Refusal;

pub fn peliranopi_check_number(symbols: &[u8], kind: &mut u32, place: &mut usize) -> u32
    ensures { NumberTells symbols.now result kind.new place.new }
{
    let answer = check_characters::check_number(symbols);
    *kind = answer.map_or(0, |kind| kind as u32);
    tell::told(answer, place)
}

pub fn peliranopi_check_numbers(
    numbers: &[u8],
    answers: &mut [u8],
    passed: &mut usize,
    place: &mut usize,
) -> u32
    ensures { DayTells numbers.now answers.old result passed.new place.new answers.new }
{
    let answer = check_characters::check_numbers(numbers, answers);
    *passed = answer.unwrap_or(0);
    tell::told(answer, place)
}

pub fn peliranopi_issue_number(
    body: &[u8],
    output: &mut [u8],
    written: &mut usize,
    place: &mut usize,
) -> u32
    ensures { IssueTells body.now output.old result written.new place.new output.new }
{
    tell_issued(check_characters::issue_number(body, output), written, place)
}

pub fn peliranopi_next_carry(carry: u32, key: u8, next: &mut u32, place: &mut usize) -> u32
    ensures { CarryTells carry key result next.new place.new }
{
    let answer = check_characters::next_carry(carry, key);
    *next = answer.unwrap_or(0);
    tell::told(answer, place)
}

pub fn peliranopi_check_iban(symbols: &[u8], place: &mut usize) -> u32
    ensures { IbanTells symbols.now result place.new }
{
    tell::told(check_characters::check_iban(symbols), place)
}

pub fn peliranopi_check_identcode(code: &[u8], place: &mut usize) -> u32
    ensures { IdentcodeTells code.now result place.new }
{
    tell::told(check_digits::check_identcode(code), place)
}

// The header has the twelve numbers as a struct of six parts.
pub fn peliranopi_read_identcode(code: &[u8], parts: &mut [usize; 12], place: &mut usize) -> u32
    ensures { PartsTells code.now result parts.new place.new }
{
    let answer = check_digits::read_identcode(code);
    *parts = numbers_of(answer);
    tell::told(answer, place)
}

pub fn peliranopi_issue_identcode(
    body: &[u8],
    output: &mut [u8],
    written: &mut usize,
    place: &mut usize,
) -> u32
    ensures { IssueIdentcodeTells body.now output.old result
        written.new place.new output.new }
{
    tell_issued(check_digits::issue_identcode(body, output), written, place)
}

// What issuing a number tells.
fn tell_issued(answer: Result<usize, Refusal>, written: &mut usize, place: &mut usize) -> u32
    ensures { Tells (verdict_on answer) result place.new × (written.new ≡ value_told answer) }
{
    *written = answer.unwrap_or(0);
    tell::told(answer, place)
}

// The twelve numbers of an answer; 0 where the code is refused.
fn numbers_of(answer: Result<Parts, Refusal>) -> [usize; 12]
    ensures { result ≡ parts_told answer }
{
    match answer {
        Ok(parts) => as_numbers(parts),
        Err(_) => [0; 12],
    }
}

// Where each part starts and how many digits it has, part by part.
fn as_numbers(parts: Parts) -> [usize; 12]
    ensures { result ≡ as_numbers parts }
{
    [
        parts.origin.start,
        parts.origin.length,
        parts.customer.start,
        parts.customer.length,
        parts.sequence.start,
        parts.sequence.length,
        parts.product.start,
        parts.product.length,
        parts.destination.start,
        parts.destination.length,
        parts.check.start,
        parts.check.length,
    ]
}
