// The cash that a line adds to the file's total.
ghost use Rattle.std.specs.Prelude.{◌≡◌, ◌≤◌};
ghost use Rattle.line.specs.Parts.{split};
ghost use Rattle.file.specs.Cash.{cash_in, cash_of};

use line::field_in;
use records::Record;

// The cents that a line of this record adds.
#[tactic(auto, using(crate::proofs::Cashing::cash_as, crate::proofs::Cashing::cash_told), unfolding(crate::specs::Cash::cash_of))]
pub fn cash_of(kind: Record, line: &[u8]) -> u64
    ensures { (result ≡ cash_of kind (split line.now)) × (result ≤ 99999999) }
{
    match kind {
        Record::Feature => cash_in(line),
        _ => 0,
    }
}

#[tactic(auto, using(crate::proofs::Cashing::no_cash, crate::proofs::Cashing::no_euro, crate::proofs::Cashing::in_euro))]
fn cash_in(line: &[u8]) -> u64
    ensures { result ≡ cash_in (split line.now) }
{
    if !fields::is_cash(field_in(line, 1)) || !text::equal(field_in(line, 4), b"EUR") {
        return 0;
    }
    forms::cents_of(field_in(line, 3))
}
