// The form of each filled field, record by record. Beside a field stands the one in front of it.
ghost use Rattle.std.specs.Prelude.{◌≡◌};
ghost use Rattle.fields.specs.Form.{post_code, is_cash, reference, is_iban, is_identcode};
ghost use Rattle.fields.specs.Profile.{profile, has_form};

use records::{Record, Version};

// Whether a filled field has its form.
#[tactic(auto, using(crate::proofs::Tables::form_rules))]
pub fn has_form(version: Version, kind: Record, number: usize, beside: &[u8], field: &[u8]) -> bool
    ensures { result ≡ has_form (profile version kind) number beside.now field.now }
{
    match (kind, number) {
        (Record::Header, 1) => forms::is_customer(field),
        (Record::Header, 3 | 4) => forms::is_date_time(field),
        (Record::Header, 5) => forms::is_digits(field, 4),
        (Record::Header, 6) => records::is_version(version, field),
        (Record::Sender, 5) => forms::is_capitals(field, 2),
        (Record::Sender, 6) => is_post_code(beside, field),
        (Record::Shipment, 1 | 2) => forms::all_digits(field),
        (Record::Shipment, 7 | 20) => forms::is_capitals(field, 2),
        (Record::Shipment, 8 | 21) => is_post_code(beside, field),
        // The carrier's own.
        (Record::Shipment, 39) => false,
        (Record::Parcel, 1) => is_identcode(field),
        (Record::Feature, 1) => forms::is_feature(field),
        (Record::Feature, 2) => is_reference(beside, field),
        (Record::Feature, 3) => forms::is_amount(field),
        (Record::Feature, 4) => forms::is_capitals(field, 3),
        (Record::Feature, 6) => is_iban(field),
        (Record::Feature, 7) => forms::is_bic(field),
        (Record::Feature, 8) => forms::is_purpose(field),
        (Record::Feature, 9) => forms::is_mail(field),
        _ => true,
    }
}

// Whether a feature code is one of those that collect cash.
#[tactic(auto, unfolding(crate::specs::Form::is_cash))]
pub fn is_cash(code: &[u8]) -> bool
    ensures { result ≡ is_cash code.now }
{
    text::equal(code, b"006") || text::equal(code, b"022")
}

// Whether a post code is right for its country.
fn is_post_code(country: &[u8], field: &[u8]) -> bool
    ensures { result ≡ post_code country.now field.now }
{
    !text::equal(country, b"AT") || forms::is_digits(field, 4)
}

// Whether a reference is right for its feature code.
fn is_reference(code: &[u8], field: &[u8]) -> bool
    ensures { result ≡ reference code.now field.now }
{
    !is_cash(code) || forms::is_purpose(field)
}

// Whether the check of an IBAN passes.
fn is_iban(field: &[u8]) -> bool
    ensures { result ≡ is_iban field.now }
{
    check_characters::check_iban(field).is_ok()
}

// Whether the check of an identcode passes.
fn is_identcode(field: &[u8]) -> bool
    ensures { result ≡ is_identcode field.now }
{
    check_digits::check_identcode(field).is_ok()
}
