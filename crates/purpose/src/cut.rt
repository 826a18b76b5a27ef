// The first 35 bytes of a text, written at the output's start.
ghost use Rattle.std.specs.Prelude.{◌≡◌, ◌++◌, ◌+◌, ◌-◌, ◌≤◌, length, take};
ghost use Rattle.text.specs.Placed.{written};
ghost use Rattle.text.specs.Quoted.{bytes};
ghost use Rattle.purpose.specs.Purpose.{purpose_long, source_text, cut};

use crate::at::field_at;
use crate::source::Source;

// The most bytes that a purpose has.
// Kept: that the output has room for them stands in three contracts, for C lends the output (no array of 35 bytes is there).
pub const PURPOSE_LONG: usize = 35;

// Writes the text that this source supplies, and answers how many bytes.
#[tactic(auto, using(crate::proofs::Cutting::field_long, crate::proofs::Cutting::field_there, crate::proofs::Cutting::both_long, crate::proofs::Cutting::both_there))]
pub fn write_source(file: &[u8], source: Source, output: &mut [u8]) -> usize
    requires { purpose_long ≤ length output.old }
    ensures { (result ≡ length (cut (source_text file.now source)))
        × (output.new ≡ written output.old 0 (cut (source_text file.now source))) }
{
    match source {
        Source::Field { offset, number } => write_upto(output, 0, field_at(file, offset, number)),
        Source::Joined { parcel, shipment } => write_joined(
            output,
            field_at(file, parcel, 1),
            field_at(file, shipment, 16),
        ),
    }
}

// Writes two texts with a slash between them.
#[tactic(auto, using(crate::proofs::Cutting::joined_long, crate::proofs::Cutting::joined_there))]
fn write_joined(output: &mut [u8], a: &[u8], b: &[u8]) -> usize
    requires { purpose_long ≤ length output.old }
    ensures { (result ≡ length (cut (a.now ++ bytes "/" ++ b.now)))
        × (output.new ≡ written output.old 0 (cut (a.now ++ bytes "/" ++ b.now))) }
{
    let slash = write_upto(output, 0, a);
    let second = write_upto(output, slash, b"/");
    write_upto(output, second, b)
}

// Writes src from the place at on, as much of it as the first 35 bytes have room for, and answers where it ends.
#[tactic(auto, using(crate::proofs::Cutting::piece_long, crate::proofs::Cutting::piece_fits, crate::proofs::Cutting::piece_there))]
fn write_upto(output: &mut [u8], at: usize, src: &[u8]) -> usize
    requires { (at ≤ purpose_long) × (purpose_long ≤ length output.old) }
    ensures { (result ≡ at + length (take (purpose_long - at) src.now)) × (result ≤ purpose_long)
        × (output.new ≡ written output.old at (take (purpose_long - at) src.now)) }
{
    let part = text::clip(src, 0, PURPOSE_LONG - at);
    text::place(output, at, part);
    at + part.len()
}
