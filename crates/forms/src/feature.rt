// Feature codes: which there are.
ghost use Rattle.std.specs.Prelude.{◌≡◌};
ghost use Rattle.text.specs.Scan.{among};
ghost use Rattle.forms.specs.Feature.{feature_codes, is_feature, code_of};

use crate::decimal::number;
use crate::shape::is_digits;

const CODES: [u32; 30] = [
    4, 6, 7, 11, 19, 22, 24, 27, 29, 45, 52, 53, 54, 61, 62, 63, 65, 66, 72, 74, 81, 82, 83, 116,
    122, 123, 142, 143, 186, 187,
];

// Whether s is a feature code.
#[tactic(auto, using(crate::proofs::Features::number_fits), unfolding(crate::specs::Feature::is_feature))]
pub fn is_feature(s: &[u8]) -> bool
    ensures { result ≡ is_feature s.now }
{
    is_digits(s, 3) && is_code(number(s))
}

// The number of a feature code, 0 for anything else.
#[tactic(auto, using(crate::proofs::Features::number_fits), unfolding(crate::specs::Feature::code_of))]
pub fn code_of(s: &[u8]) -> u32
    ensures { result ≡ code_of s.now }
{
    if is_feature(s) { number(s) } else { 0 }
}

// Whether there is a feature with this code.
#[tactic(auto, unfolding(crate::specs::Feature::feature_codes))]
fn is_code(code: u32) -> bool
    ensures { result ≡ among code feature_codes }
{
    CODES.contains(&code)
}
