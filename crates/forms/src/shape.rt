// Forms that look at bytes one by one: digits, capitals, the customer number, a BIC, an e-mail address and a
// payment purpose.
ghost use Rattle.std.specs.Prelude.{◌≡◌};
ghost use Rattle.forms.specs.Shape.{all_digits, digits, capitals, customer, bic, mail, purpose_text};

use text::Class;

// Whether every byte is a digit.
#[tactic(auto, unfolding(crate::specs::Shape::all_digits))]
pub fn all_digits(s: &[u8]) -> bool
    ensures { result ≡ all_digits s.now }
{
    text::all_in(Class::Digit, s)
}

// Whether s is n digits.
#[tactic(auto, unfolding(crate::specs::Shape::digits))]
pub fn is_digits(s: &[u8], n: usize) -> bool
    ensures { result ≡ digits n s.now }
{
    s.len() == n && all_digits(s)
}

// Whether s is so many capitals.
// Kept: beside `is_digits`, a line each over `text::all_in`. One function that is told the class would be no plainer.
#[tactic(auto, unfolding(crate::specs::Shape::capitals))]
pub fn is_capitals(s: &[u8], count: usize) -> bool
    ensures { result ≡ capitals count s.now }
{
    s.len() == count && text::all_in(Class::Capital, s)
}

// Whether s is a customer number.
#[tactic(auto, unfolding(crate::specs::Shape::customer))]
pub fn is_customer(s: &[u8]) -> bool
    ensures { result ≡ customer s.now }
{
    is_digits(s, 10) && s.starts_with(b"00")
}

// Whether s is a BIC.
#[tactic(auto, unfolding(crate::specs::Shape::bic))]
pub fn is_bic(s: &[u8]) -> bool
    ensures { result ≡ bic s.now }
{
    matches!(s.len(), 8 | 11) && text::all_in(Class::Symbol, s)
}

// Whether s is an e-mail address.
#[tactic(auto, unfolding(crate::specs::Shape::mail))]
pub fn is_mail(s: &[u8]) -> bool
    ensures { result ≡ mail s.now }
{
    text::count_of(b'@', s) == 1 && s[0] != b'@' && s[s.len() - 1] != b'@'
}

// Whether s may stand in a payment purpose.
#[tactic(auto, unfolding(crate::specs::Shape::purpose_text))]
pub fn is_purpose(s: &[u8]) -> bool
    ensures { result ≡ purpose_text s.now }
{
    text::all_in(Class::Purpose, s)
}
