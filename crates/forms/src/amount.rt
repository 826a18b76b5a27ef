// An amount of money, as field 3 of a 060 line has it: its form, and its cents. Document 01 lays the form down.
//
//     12.50        100 * 12 + 50 = 1250 cents
//     0.01         1 cent, the least
//     999999.99    99999999 cents, the most
//     0.00         no amount: it has the digits and the point, but no cent
//     01.00        no amount: a zero stands before another digit
ghost use Rattle.std.specs.Prelude.{◌≡◌, ◌≤◌, length, if◌then◌else◌};
ghost use Rattle.forms.specs.Amount.{cents, pointed, leading_zero, amount};

use crate::decimal::number;
use crate::shape::{all_digits, is_digits};

// Whether s is an amount.
#[tactic(auto, using(crate::proofs::Amounts::parts_fit), unfolding(crate::specs::Amount::amount))]
pub fn is_amount(s: &[u8]) -> bool
    ensures { result ≡ amount s.now }
{
    is_pointed(s) && !has_leading_zero(s) && 1 <= cents_in(s)
}

// The cents of an amount, 0 for anything else.
#[tactic(auto, using(crate::proofs::Amounts::parts_fit))]
pub fn cents_of(s: &[u8]) -> u64
    ensures { result ≡ (if amount s.now then cents s.now else 0) }
{
    if is_amount(s) { cents_in(s) } else { 0 }
}

// Whether s is 1 to 6 digits, a point and two digits.
#[tactic(auto, unfolding(crate::specs::Amount::pointed))]
fn is_pointed(s: &[u8]) -> bool
    ensures { result ≡ pointed s.now }
{
    if !matches!(s.len(), 4..=9) {
        return false;
    }
    let point = s.len() - 3;
    all_digits(&s[..point]) && s[point] == b'.' && is_digits(&s[point + 1..], 2)
}

// Whether another digit follows a leading zero.
#[tactic(auto, unfolding(crate::specs::Amount::leading_zero))]
fn has_leading_zero(s: &[u8]) -> bool
    ensures { result ≡ leading_zero s.now }
{
    5 <= s.len() && s[0] == b'0'
}

// The cents where the lengths are known to be right.
#[tactic(auto, unfolding(crate::specs::Amount::cents))]
fn cents_in(s: &[u8]) -> u64
    requires { (4 ≤ length s.now) × (length s.now ≤ 9) }
    ensures { result ≡ cents s.now }
{
    let point = s.len() - 3;
    let whole = number(&s[..point]);
    let hundredths = number(&s[point + 1..]);
    100 * u64::from(whole) + u64::from(hundredths)
}
