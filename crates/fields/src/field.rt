// The one test of a field: too long, empty where it must be filled, or not in its form.
ghost use Rattle.std.specs.Prelude.{◌≡◌};
ghost use Rattle.fields.specs.Field.{tested};
ghost use Rattle.fields.specs.Profile.{width_of, profile};

use crate::{form, table};
use records::{Record, Version};
use refusal::Reason;

// Tests the field with this number; beside it stands the field in front of it.
#[tactic(auto, unfolding(crate::specs::Field::tested))]
pub fn test_field(
    version: Version,
    kind: Record,
    number: usize,
    beside: &[u8],
    field: &[u8],
) -> Result<(), Reason>
    ensures { result ≡ tested (profile version kind) number beside.now field.now }
{
    // No empty field is too long, and most fields are empty: so this is asked first.
    if field.is_empty() {
        if table::is_required(version, kind, number) {
            return Err(Reason::FieldEmpty);
        }
        return Ok(());
    }
    if width_of(version, kind, number, beside) < field.len() {
        return Err(Reason::FieldTooLong);
    }
    if !form::has_form(version, kind, number, beside, field) {
        return Err(Reason::FieldForm);
    }
    Ok(())
}

// How wide the field may be. In version 5 the reference of a feature that collects cash is narrower than the table has it.
#[tactic(auto, using(crate::proofs::Tables::width_rules))]
fn width_of(version: Version, kind: Record, number: usize, beside: &[u8]) -> usize
    ensures { result ≡ width_of (profile version kind) number beside.now }
{
    match (version, kind, number) {
        (Version::Five, Record::Feature, 2) if form::is_cash(beside) => 35,
        _ => table::table_width(version, kind, number),
    }
}
