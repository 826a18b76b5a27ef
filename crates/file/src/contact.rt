// A sender's contacts, phone and mail: whether both are there, and whether a shipment lacks one.
ghost use Rattle.std.specs.Prelude.{◌≡◌};
ghost use Rattle.line.specs.Parts.{split};
ghost use Rattle.file.specs.Contact.{has_contacts, contacts_behind, lacks_contact};

use line::{field_in, is_filled};
use records::Record;

// Whether the sender behind a line of this record has both contacts; before it, the sender had them or had not.
#[tactic(auto, using(crate::proofs::Contacts::contacts_as), unfolding(crate::specs::Contact::contacts_behind))]
pub fn contacts_behind(kind: Record, line: &[u8], before: bool) -> bool
    ensures { result ≡ contacts_behind kind (split line.now) before }
{
    match kind {
        Record::Sender => has_contacts(line),
        _ => before,
    }
}

#[tactic(auto, unfolding(crate::specs::Contact::has_contacts))]
fn has_contacts(line: &[u8]) -> bool
    ensures { result ≡ has_contacts (split line.now) }
{
    is_filled(line, 12) && is_filled(line, 13)
}

// Whether a line of this record is a shipment into a listed country, under a sender that does not have both contacts.
#[tactic(auto, using(crate::proofs::Contacts::has_both, crate::proofs::Contacts::none_lent, crate::proofs::Contacts::lacks_listed), unfolding(crate::specs::Contact::lacks_contact))]
pub fn lacks_contact(kind: Record, line: &[u8], countries: &[u8], contacts: bool) -> bool
    ensures { result ≡ lacks_contact kind (split line.now) countries.now contacts }
{
    // An empty list names no country: the shipment's need not be looked for.
    if contacts || countries.is_empty() {
        return false;
    }
    match kind {
        Record::Shipment => countries::is_listed(countries, field_in(line, 20)),
        _ => false,
    }
}
