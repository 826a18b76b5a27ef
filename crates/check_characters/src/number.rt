// DPD numbers: a tracking number or a label code checked, and one issued from its body. The carrier lays down what stands where in
// them; the last symbol is a check character by ISO/IEC 7064, MOD 37,36.
//
// The tracking number 09980000020041F has 14 digits and the check `F`. The carry starts at 36. A symbol's value is added to it, the
// sum reduced modulo 36 with 0 read as 36, doubled, and reduced modulo 37:
//
//     symbol       0   9   9   8   0   0   0   0   0   2   0   0   4   1
//     carry   36  35  16  13   5  10  20   3   6  12  28  19   1  10  22
//
// First 36 + 0 leaves 0, read as 36; twice that is 72, which leaves 35. Then 35 + 9 leaves 8, and twice that is 16. At the end the
// check's value makes 22 + value leave 1 modulo 36: it is 15, the value of `F`. Twice 1 is 2, the carry behind it.
ghost use Rattle.std.specs.Prelude.{◌≡◌, ◌+◌, ◌<◌, ◌≤◌, length};
ghost use Rattle.check_characters.specs.Number.{length_of, allowed_in_number, checked_as, checked_number};
ghost use Rattle.check_characters.specs.Number.{issue_as, Issues};
ghost use Rattle.check_characters.specs.Answer.{walked, issued_to};
ghost use Rattle.check_characters.specs.Mod37.{carry, check_of};

use crate::answer;
use crate::carry::Carry;
use crate::steps::Steps;
use refusal::{Reason, Refusal};

// The numbers are those that the calls for C tell.
#[derive(Clone, Copy, Debug, PartialEq, Eq)]
pub enum Kind {
    Tracking = 1,
    Label = 2,
}

impl Kind {
    // Whether the byte b may stand at the place i of a number.
    #[tactic(auto, using(crate::proofs::Shapes::stands))]
    fn allows(self, i: usize, b: u8) -> bool
        requires { i < length_of self }
        ensures { result ≡ allowed_in_number self i b }
    {
        match self {
            Kind::Tracking => match i {
                0..14 => text::is_digit(b),
                _ => text::is_symbol(b),
            },
            Kind::Label => match i {
                0..7 => text::is_symbol(b),
                7..27 => text::is_digit(b),
                _ => text::is_symbol(b),
            },
        }
    }
}

// Checks a tracking number or a label code; the length tells which.
#[tactic(auto, unfolding(crate::specs::Number::checked_number))]
pub fn check_number(symbols: &[u8]) -> Result<Kind, Refusal>
    ensures { result ≡ checked_number symbols.now }
{
    let steps = Steps::laid_out();
    match symbols.len() {
        15 => check_as(&steps, Kind::Tracking, symbols),
        28 => check_as(&steps, Kind::Label, symbols),
        _ => Err(Refusal::new(Reason::WrongLength, 0)),
    }
}

// Issues the number that has this body: body and check are written at the output's start.
#[tactic(auto, unfolding(crate::specs::Number::issue_answer, crate::specs::Answer::issued_to))]
pub fn issue_number(body: &[u8], output: &mut [u8]) -> Result<usize, Refusal>
    ensures { Issues body.now output.old result output.new }
{
    match body.len() {
        14 => issue_as(Kind::Tracking, body, output),
        27 => issue_as(Kind::Label, body, output),
        _ => Err(Refusal::new(Reason::WrongLength, 0)),
    }
}

// Checks a number that has the length of its kind. Its check is walked over like the other symbols: it makes the sum leave 1 modulo 36, so
// that the carry behind it is 2. A day's numbers are checked by this too.
#[tactic(auto, using(crate::proofs::Shapes::has_last, crate::proofs::Checking::checks))]
pub fn check_as(steps: &Steps, kind: Kind, symbols: &[u8]) -> Result<Kind, Refusal>
    requires { length symbols.now ≡ length_of kind }
    ensures { result ≡ checked_as kind symbols.now }
{
    let carry = walk(steps, kind, symbols)?;
    if carry.number == 2 {
        return Ok(kind);
    }
    Err(Refusal::new(Reason::WrongCheck, symbols.len() - 1))
}

// Issues a number from a body that is one symbol shorter than its kind.
#[tactic(auto, using(crate::proofs::Issuing::issues), unfolding(crate::specs::Answer::issued_to))]
fn issue_as(kind: Kind, body: &[u8], output: &mut [u8]) -> Result<usize, Refusal>
    requires { length body.now + 1 ≡ length_of kind }
    ensures told { result ≡ issue_as kind body.now (length output.old) }
    ensures wrote { output.new ≡ issued_to result body.now (check_of body.now) output.old }
{
    let carry = walk(&Steps::laid_out(), kind, body)?;
    answer::issue(body, carry.closing(), output)
}

// Walks over symbols that may stand in a number of this kind, and takes the carry along; the first that may not is refused. It goes into
// its callers, so that the walk over each of a day's numbers has one kind and one length.
// Kept: an identcode and an IBAN have walks of their own, which take along a sum and nothing; a closure for each would be no plainer.
#[inline(always)]
#[tactic(auto, using(crate::proofs::Walks::walks, crate::proofs::Carries::carry_next))]
fn walk(steps: &Steps, kind: Kind, symbols: &[u8]) -> Result<Carry, Refusal>
    requires { length symbols.now ≤ length_of kind }
    ensures { result ≡ walked (allowed_in_number kind) symbols.now (carry symbols.now) }
{
    let mut carry = Carry::start();
    for (i, &b) in symbols.iter().enumerate() {
        if !kind.allows(i, b) {
            return Err(Refusal::new(Reason::WrongSymbol, i));
        }
        carry = steps.next(carry, b);
    }
    Ok(carry)
}
