// Identcodes: whether one stands on an earlier line.
ghost use Rattle.std.specs.Prelude.{◌≡◌, ◌≤◌, length};
ghost use Rattle.line.specs.Line.{file_limit};
ghost use Rattle.identcodes.specs.Tree.{is_there, grown};
ghost use Rattle.file.specs.Identcode.{is_there_for, grown_for, parcels_most};

use identcodes::CodeAnswer;
use records::Record;

// Room for the tree of the most parcels that a file can have, 2,340.
pub const TREE_WORDS: usize = 4681;

// Whether the line of this record that starts here repeats an identcode of the tree; one that is new is put into it.
#[tactic(auto, using(crate::proofs::Finding::there_as, crate::proofs::Finding::grown_as), unfolding(crate::specs::Identcode::is_there_for, crate::specs::Identcode::grown_for))]
pub fn is_repeated(
    kind: Record,
    file: &[u8],
    codes: &mut [u32; TREE_WORDS],
    parcels: usize,
    offset: usize,
) -> bool
    requires { (parcels ≤ parcels_most) × (offset ≤ file_limit) }
    ensures { (result ≡ is_there_for kind file.now codes.old parcels offset)
        × (codes.new ≡ grown_for kind file.now codes.old parcels offset) }
{
    match kind {
        Record::Parcel => is_known(file, codes, parcels, offset),
        _ => false,
    }
}

// The same for a parcel line.
#[tactic(auto, using(crate::proofs::Finding::is_there_lem, crate::proofs::Finding::is_new, crate::proofs::Finding::has_room_lem, crate::proofs::Finding::is_grown))]
fn is_known(file: &[u8], codes: &mut [u32; TREE_WORDS], parcels: usize, offset: usize) -> bool
    requires { (parcels ≤ parcels_most) × (offset ≤ file_limit) }
    ensures { (result ≡ is_there file.now codes.old parcels offset)
        × (codes.new ≡ grown file.now codes.old parcels offset) }
{
    match identcodes::find_or_grow(file, codes, parcels, offset) {
        CodeAnswer::Known => true,
        // A file has no more parcels than the tree has room for.
        CodeAnswer::New | CodeAnswer::NoRoom => false,
    }
}
