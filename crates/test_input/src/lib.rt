// What the test programs read and print alike: the numbers in their input's lines, what they say by `write!`, and a refusal.
#![tactic(auto)]

ghost use Rattle.std.specs.Prelude.{◌≡◌, ◌≤◌, length};
ghost use Rattle.test_input.specs.Input.{given};

use refusal::Refusal;
use std::fmt;
use std::io::{Eprint, Print};

// A number, and where the input goes on behind it and the byte that ends it.
#[derive(Clone, Copy, Debug, PartialEq, Eq)]
pub struct Given {
    pub value: usize,
    pub next: usize,
}

// The number that the digits from here on write, modulo 1,000,000.
#[tactic(auto, using(crate::proofs::Reading::value_on, crate::proofs::Reading::given_stops, crate::proofs::Reading::given_ends))]
pub fn number(s: &[u8], start: usize) -> Given
    ensures { (result ≡ given s.now start) × (result.value ≤ 999999) × (result.next ≤ length s.now) }
{
    let mut value: usize = 0;
    for i in start..s.len() {
        if !text::is_digit(s[i]) {
            return Given { value, next: i + 1 };
        }
        value = (10 * value + usize::from(s[i].saturating_sub(b'0'))) % 1000000;
    }
    Given {
        value,
        next: s.len(),
    }
}

// Standard output for `write!`. It never fails: a piece that can't be written is told by `streams::say`, and the next one is tried.
#[derive(Drop)]
pub struct Sayer<'a, R>(pub &'a R);

impl<R: Print + Eprint> fmt::Write for Sayer<'_, R> {
    ghost use Rattle.std.specs.Prelude.{IsOk};

    fn write_str(&mut self, s: &str) -> fmt::Result
        ensures { IsOk result }
    {
        streams::say(self.0, s.as_bytes());
        Ok(())
    }
}

// A refusal as the test programs print it: `no NUMBER PLACE`.
#[derive(Clone, Copy, Debug, PartialEq, Eq)]
pub struct No(pub Refusal);

impl fmt::Display for No {
    ghost use Rattle.std.specs.Prelude.{Some};
    ghost use Rattle.test_input.specs.Told.{refusal_text};

    ghost output = { λ no. Some (refusal_text no.0) };

    fn fmt<W: fmt::Write>(&self, f: &mut fmt::Formatter<W>) -> fmt::Result {
        let Refusal { why, place } = self.0;
        write!(f, "no {} {place}", refusal::number(why))
    }
}

// The same behind a text: ` no NUMBER PLACE`, whose first space and word are one piece.
#[derive(Clone, Copy, Debug, PartialEq, Eq)]
pub struct NoBehind(pub Refusal);

impl fmt::Display for NoBehind {
    ghost use Rattle.std.specs.Prelude.{Some, ◌++◌, codes};
    ghost use Rattle.test_input.specs.Told.{refusal_text};

    ghost output = { λ no. Some (codes " " ++ refusal_text no.0) };

    fn fmt<W: fmt::Write>(&self, f: &mut fmt::Formatter<W>) -> fmt::Result {
        let Refusal { why, place } = self.0;
        write!(f, " no {} {place}", refusal::number(why))
    }
}
