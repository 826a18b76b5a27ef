// The remainder by 97 of the number that an IBAN stands for, worked out on a walk over its symbols.
ghost use Rattle.std.specs.Prelude.{◌≡◌, ◌+◌, ◌*◌, ◌%◌, ◌<◌, ◌≤◌, [], ◌∷◌, length};
ghost use Rattle.check_characters.specs.Iban.{spread, decimal_from, iban_number};

use crate::symbol;

// A remainder by 97.
#[derive(Clone, Copy)]
pub struct Remainder {
    pub number: u64,
    ghost small: { number < 97 },
}

// The remainder of an IBAN's number: behind the account part, and from there behind the first four.
pub fn of_iban(symbols: &[u8]) -> Remainder
    requires { 4 ≤ length symbols.now }
    ensures { result.number ≡ iban_number symbols.now % 97 }
{
    let (first, account) = symbols.split_at(4);
    Remainder::of(0).behind(account).behind(first)
}

impl Remainder {
    // That of a number.
    fn of(n: u64) -> Remainder
        ensures { result.number ≡ n % 97 }
    {
        Remainder { number: n % 97 }
    }

    // The remainder behind a run of symbols. It is taken once for four symbols, which leave the number below 10,000,000,000.
    #[tactic(auto, using(crate::proofs::Digits::four_on))]
    fn behind(self, run: &[u8]) -> Remainder
        ensures { result.number ≡ decimal_from self.number (spread run.now) % 97 }
    {
        let mut last = self;
        let mut left = run;
        while let [a, b, c, d, rest @ ..] = left {
            last = Remainder::of(last.number_behind_four(*a, *b, *c, *d));
            left = rest;
        }
        last.behind_each(left)
    }

    // The remainder behind a run of symbols, taken symbol by symbol.
    #[tactic(auto, using(crate::proofs::Digits::one_on, crate::proofs::Digits::walk_ends))]
    fn behind_each(self, run: &[u8]) -> Remainder
        ensures { result.number ≡ decimal_from self.number (spread run.now) % 97 }
    {
        let mut last = self;
        for &b in run {
            last = Remainder::of(number_behind(last.number, b));
        }
        last
    }

    // The number behind four more symbols.
    #[tactic(auto, using(crate::proofs::Digits::behind_each))]
    fn number_behind_four(self, a: u8, b: u8, c: u8, d: u8) -> u64
        ensures { result ≡ decimal_from self.number (spread (a ∷ b ∷ c ∷ d ∷ [])) }
    {
        number_behind(
            number_behind(number_behind(number_behind(self.number, a), b), c),
            d,
        )
    }
}

// The number behind one more symbol, where it is `n` in front of it: a letter is two digits.
#[tactic(auto, using(crate::proofs::Digits::behind_letter, crate::proofs::Digits::behind_digit, crate::proofs::Symbols::value_le))]
fn number_behind(n: u64, b: u8) -> u64
    requires { n < 100000000 }
    ensures number { result ≡ decimal_from n (spread (b ∷ [])) }
    ensures below { result < 100 * n + 36 }
{
    let v = symbol::value(b) as u64;
    if text::is_capital(b) {
        return 100 * n + v;
    }
    10 * n + v
}
