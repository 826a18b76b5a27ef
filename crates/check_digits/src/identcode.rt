// Identcodes, the Post's codes of its parcels: one checked, read as its six parts, and one issued from its digits without the check.
//
// The check digit of 854637900327598186342. The weights go 3, 1, 3, 1 from the left:
//
//     digit    8  5  4  6  3  7  9  0  0  3  2  7  5  9  8  1  8  6  3  4  2
//     weight   3  1  3  1  3  1  3  1  3  1  3  1  3  1  3  1  3  1  3  1  3
//     weighed 24  5 12  6  9  7 27  0  0  3  6  7 15  9 24  1 24  6  9  4  6    204 in all
//
// 204 leaves 4 by 10, and 10 - 4 is 6. The check digit itself would weigh 1: so a code passes where all its 22 digits, weighed, leave
// 0, here 210. That takes one walk.
ghost use Rattle.std.specs.Prelude.{◌≡◌, ◌≤◌, length};
ghost use Rattle.check_digits.specs.Identcode.{allowed_in_identcode, weight_at, weighed, check_digit, checked_identcode};
ghost use Rattle.check_digits.specs.Identcode.{parts_answer, IssuesIdentcode};
ghost use Rattle.check_characters.specs.Answer.{walked};

use refusal::{Reason, Refusal};

// One part: where it starts in the code, and how many digits it has.
#[derive(Clone, Copy, Debug, PartialEq, Eq)]
pub struct Part {
    pub start: usize,
    pub length: usize,
}

impl Part {
    fn new(start: usize, length: usize) -> Part
        ensures { result ≡ record { start = start; length = length } }
    {
        Part { start, length }
    }
}

// The parts of an identcode, in their order.
#[derive(Clone, Copy, Debug, PartialEq, Eq)]
pub struct Parts {
    // Country of origin or partner.
    pub origin: Part,
    pub customer: Part,
    // The customer's sequential number of the parcel.
    pub sequence: Part,
    // Product and process.
    pub product: Part,
    // Post code, or country abroad.
    pub destination: Part,
    pub check: Part,
}

// Checks an identcode.
#[tactic(auto, using(crate::proofs::Identcodes::checks))]
pub fn check_identcode(code: &[u8]) -> Result<(), Refusal>
    ensures { result ≡ checked_identcode code.now }
{
    if code.len() != 22 {
        return Err(Refusal::new(Reason::WrongLength, 0));
    }
    let sum = weigh(code)?;
    if sum % 10 == 0 {
        return Ok(());
    }
    Err(Refusal::new(Reason::WrongCheck, 21))
}

// Reads the six parts of an identcode that passes.
#[tactic(auto, unfolding(crate::specs::Identcode::parts_answer))]
pub fn read_identcode(code: &[u8]) -> Result<Parts, Refusal>
    ensures { result ≡ parts_answer code.now }
{
    check_identcode(code)?;
    Ok(Parts {
        origin: Part::new(0, 2),
        customer: Part::new(2, 5),
        sequence: Part::new(7, 8),
        product: Part::new(15, 2),
        destination: Part::new(17, 4),
        check: Part::new(21, 1),
    })
}

// Issues the identcode that has these 21 digits: they and their check digit are written at the output's start.
#[tactic(auto, using(crate::proofs::Identcodes::issues), unfolding(check_characters::specs::Answer::issued_to))]
pub fn issue_identcode(body: &[u8], output: &mut [u8]) -> Result<usize, Refusal>
    ensures { IssuesIdentcode body.now output.old result output.new }
{
    if body.len() != 21 {
        return Err(Refusal::new(Reason::WrongLength, 0));
    }
    let sum = weigh(body)?;
    check_characters::issue(body, check_digit(sum), output)
}

// The sum of digits, each times its weight; the first symbol that is none is refused.
#[tactic(auto, using(check_characters::proofs::Walks::walks, crate::proofs::Identcodes::weighings))]
fn weigh(digits: &[u8]) -> Result<u32, Refusal>
    requires { length digits.now ≤ 22 }
    ensures { result ≡ walked allowed_in_identcode digits.now (weighed digits.now) }
{
    let mut sum = 0;
    for (i, &b) in digits.iter().enumerate() {
        if !text::is_digit(b) {
            return Err(Refusal::new(Reason::WrongSymbol, i));
        }
        sum += weight_at(i) * ((b - b'0') as u32);
    }
    Ok(sum)
}

// The weight at a place.
#[tactic(auto, unfolding(crate::specs::Identcode::weight_at))]
fn weight_at(i: usize) -> u32
    ensures { result ≡ weight_at i }
{
    if i % 2 == 0 {
        return 3;
    }
    1
}

// The check digit that goes with a sum.
#[tactic(auto, using(crate::proofs::Identcodes::digit_is))]
fn check_digit(sum: u32) -> u8
    ensures { result ≡ check_digit sum }
{
    b'0' + (10 - (sum % 10) as u8) % 10
}
