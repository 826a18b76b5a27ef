// The carry of ISO/IEC 7064 MOD 37,36 after one more symbol, and the check character that it asks for behind a run of them. Each step is
// read from the table of steps, which a call lays out once and lends to all below it.
ghost use Rattle.std.specs.Prelude.{◌≡◌, Some, None, if◌then◌else◌};
ghost use Rattle.check_characters.specs.Symbol.{symbol_of};
ghost use Rattle.check_characters.specs.Mod37.{closes, first_value, check_of};
ghost use Rattle.check_characters.specs.Wedge.{is_carry, next_carry};

use crate::steps::Steps;
use crate::symbol;
use refusal::{Reason, Refusal};
use std::marker::Model;

// A carry, 1 to 36. It is a whole word: a byte would be put into a part of a register, and so wait for the number before it in a day's
// numbers.
#[derive(Clone, Copy)]
pub struct Carry {
    pub number: usize,
}

impl Model for Carry {
    ghost use Rattle.std.specs.Prelude.{ℕ, ◌≤◌};

    ghost Value = { ℕ };

    ghost view = { λ c. c.number };

    ghost invariant = { λ c. (1 ≤ c.number) × (c.number ≤ 36) };

    ghost inverse = { λ n. record { number = n } };
}

impl Carry {
    // The carry in front of the first symbol.
    pub fn start() -> Carry
        ensures { result ≡ 36 }
    {
        Carry { number: 36 }
    }

    // The carry that a number is, where it is one.
    fn new(number: u32) -> Option<Carry>
        ensures { result ≡ (if is_carry number then Some number else None) }
    {
        match number {
            1..=36 => Some(Carry {
                number: number as usize,
            }),
            _ => None,
        }
    }

    // The check character that closes it.
    #[tactic(auto, using(crate::proofs::Carries::closing_symbol))]
    pub fn closing(self) -> u8
        ensures { result ≡ symbol_of (first_value (closes self) 0 36) }
    {
        symbol::symbol_of(((37 - self.number) % 36) as u8)
    }
}

// The carry after one more symbol, for a caller who takes a number key by key: the first call is given 36, each later one the carry that the
// call before it answered.
#[tactic(auto, unfolding(crate::specs::Wedge::next_carry))]
pub fn next_carry(carry: u32, key: u8) -> Result<u32, Refusal>
    ensures { result ≡ next_carry carry key }
{
    let Some(carry) = Carry::new(carry) else {
        return Err(Refusal::new(Reason::NotThere, 0));
    };
    if !text::is_symbol(key) {
        return Err(Refusal::new(Reason::WrongSymbol, 0));
    }
    let after = Steps::laid_out().next(carry, key);
    Ok(after.number as u32)
}

// The check character of a run of symbols.
#[tactic(auto, using(crate::proofs::Carries::carry_next, crate::proofs::Carries::carry_ends), unfolding(crate::specs::Mod37::check_of))]
pub fn check_of(symbols: &[u8]) -> u8
    ensures { result ≡ check_of symbols.now }
{
    let steps = Steps::laid_out();
    let mut carry = Carry::start();
    for &b in symbols {
        carry = steps.next(carry, b);
    }
    carry.closing()
}
