// What a feature needs: the fields of its line that must be filled.
ghost use Rattle.std.specs.Prelude.{◌≡◌};
ghost use Rattle.line.specs.Parts.{split};
ghost use Rattle.text.specs.Scan.{all};
ghost use Rattle.line.specs.Need.{is_filled, is_served, lacks};

use crate::part::field_in;
use records::Record;

// Whether a line lacks a field that its feature needs.
#[tactic(auto, using(crate::proofs::Needs::lacks_is))]
pub fn lacks_field(kind: Record, line: &[u8]) -> bool
    ensures { result ≡ lacks kind (split line.now) }
{
    kind == Record::Feature && !is_served(line)
}

// Whether the line of a feature has what its code needs.
#[tactic(auto, unfolding(crate::specs::Need::is_served, crate::specs::Need::serves))]
fn is_served(line: &[u8]) -> bool
    ensures { result ≡ is_served (split line.now) }
{
    match forms::code_of(field_in(line, 1)) {
        6 | 22 => all_filled(line, &[3, 4, 5, 6, 7]),
        11 | 63 => all_filled(line, &[3, 4]),
        54 => is_filled(line, 9) || is_filled(line, 10),
        _ => true,
    }
}

// Whether the parts with these numbers are filled.
fn all_filled(line: &[u8], numbers: &[usize]) -> bool
    ensures { result ≡ all (is_filled (split line.now)) numbers.now }
{
    numbers.iter().all(|&number| is_filled(line, number))
}

// Whether the part with this number is filled.
#[tactic(auto, unfolding(crate::specs::Need::is_filled))]
pub fn is_filled(line: &[u8], number: usize) -> bool
    ensures { result ≡ is_filled (split line.now) number }
{
    !field_in(line, number).is_empty()
}
