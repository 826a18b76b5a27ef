// The lines of a judged file, known by where they start: their types and fields. Nothing is judged here; past the file no bytes stand.
ghost use Rattle.std.specs.Prelude.{◌≡◌, get_or};
ghost use Rattle.purpose.specs.At.{field_at, filled_at, is_typed};

// Where the line with this number starts; 0 where the list has no such line.
#[tactic(auto, using(text::proofs::Scans::read_past))]
pub fn offset_of(starts: &[u32], number: usize) -> usize
    ensures { result ≡ get_or starts.now number 0 }
{
    starts.get(number).map_or(0, |&start| start as usize)
}

// The part with this number of the line that starts here: the record type for 0, else the field.
#[tactic(auto, using(crate::proofs::Starting::part_told))]
pub fn field_at(file: &[u8], offset: usize, number: usize) -> &[u8]
    ensures { result.now ≡ field_at file.now offset number }
{
    line::field_in(line::text_at(file, offset), number)
}

// Whether a line of this type starts here.
#[tactic(auto, using(text::proofs::Scans::same_as), unfolding(crate::specs::At::is_typed))]
pub fn is_typed(file: &[u8], offset: usize, name: &[u8]) -> bool
    ensures { result ≡ is_typed file.now offset name.now }
{
    text::equal(field_at(file, offset, 0), name)
}

// Whether the field with this number of the line that starts here is filled.
#[tactic(auto, using(crate::proofs::Starting::filled_told))]
pub fn is_filled_at(file: &[u8], offset: usize, number: usize) -> bool
    ensures { result ≡ filled_at file.now offset number }
{
    line::is_filled(line::text_at(file, offset), number)
}
