// IBANs, account numbers by ISO 13616: one checked by ISO/IEC 7064, MOD 97-10.
//
// AT611904300234573201 is the country `AT`, the check digits 61 and the account. The first four move to the end, and letters become two
// digits, A 10 and T 29:
//
//     1904300234573201 AT61    becomes    1904300234573201 1029 61
//
// The remainder by 97 is taken on a walk over the IBAN as it stands, first the account, then the first four. Behind 1904 it is 61, behind
// 3002 it is 59, behind 3457 it is 11, behind 3201 it is 2, and behind AT61 it is 1, so that the IBAN passes. With the check digits 16 it
// is 53 in the end (`example_walk`).
ghost use Rattle.std.specs.Prelude.{◌≡◌, ◌≤◌, length, not, position};
ghost use Rattle.std.specs.List.{enumerate_from};
ghost use Rattle.check_characters.specs.Iban.{allowed_in_iban, barred, sound_of, checked_iban};

use crate::{remainder, symbol};
use refusal::{Reason, Refusal};

// Checks an IBAN.
#[tactic(auto, using(crate::proofs::Ibans::checked_wrong, crate::proofs::Ibans::checked_right), unfolding(crate::specs::Iban::checked_iban))]
pub fn check_iban(symbols: &[u8]) -> Result<(), Refusal>
    ensures { result ≡ checked_iban symbols.now }
{
    if !matches!(symbols.len(), 15..=34) {
        return Err(Refusal::new(Reason::WrongLength, 0));
    }
    if let Some(wrong) = wrong_symbol(symbols) {
        return Err(Refusal::new(Reason::WrongSymbol, wrong));
    }
    if is_sound(symbols) {
        return Ok(());
    }
    Err(Refusal::new(Reason::WrongCheck, 2))
}

// Whether the check digits may stand in an IBAN and the remainder by 97 is 1.
#[tactic(auto, unfolding(crate::specs::Iban::sound_of))]
fn is_sound(symbols: &[u8]) -> bool
    requires { 4 ≤ length symbols.now }
    ensures { result ≡ sound_of symbols.now }
{
    let tens = symbol::value(symbols[2]) as u32;
    let ones = symbol::value(symbols[3]) as u32;
    !is_barred(10 * tens + ones) && remainder::of_iban(symbols).number == 1
}

// Whether these check digits never stand in an IBAN, though the remainder by 97 may be 1.
#[tactic(auto, unfolding(crate::specs::Iban::barred))]
fn is_barred(digits: u32) -> bool
    ensures { result ≡ barred digits }
{
    matches!(digits, 0 | 1 | 99)
}

// The place of the first symbol that is not allowed where it stands.
fn wrong_symbol(symbols: &[u8]) -> Option<usize>
    ensures { result ≡ position (λ p. not (allowed_in_iban p.0 p.1)) (enumerate_from 0 symbols.now) }
{
    symbols
        .iter()
        .enumerate()
        .position(|(i, &b)| !is_allowed(i, b))
}

// Whether the byte b may stand at the place i.
#[tactic(auto, unfolding(crate::specs::Iban::allowed_in_iban))]
fn is_allowed(i: usize, b: u8) -> bool
    ensures { result ≡ allowed_in_iban i b }
{
    match i {
        0..2 => text::is_capital(b),
        2..4 => text::is_digit(b),
        _ => text::is_symbol(b),
    }
}
