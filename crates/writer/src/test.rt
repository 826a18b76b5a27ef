// What is asked before a line is written: its fields from left to right.
ghost use Rattle.std.specs.Prelude.{◌≡◌};
ghost use Rattle.text.specs.Scan.{all};
ghost use Rattle.records.specs.Record.{type_of};
ghost use Rattle.fields.specs.Profile.{profile};
ghost use Rattle.line.specs.Render.{plain};
ghost use Rattle.writer.specs.Write.{between, tested_to_write, walked};

use crate::run::FieldRun;
use records::{Record, Version};
use refusal::{Reason, Refusal};

// Tests the fields. Beside a field stands the one in front of it; no rule of a first field looks beside it.
#[tactic(auto, using(crate::proofs::Walks::walking_none, crate::proofs::Walks::walking_done, crate::proofs::Walks::next_rises, crate::proofs::Walks::next_inside, crate::proofs::Walks::walking_stops, crate::proofs::Walks::walking_on))]
pub fn walk_fields(version: Version, kind: Record, run: FieldRun<'_>) -> Result<(), Refusal>
    ensures { result ≡ walked (profile version kind) 1 (type_of kind) (between run.entry.text.now run.entry.ends.now) }
{
    let mut beside = 0;
    let mut start = 0;
    for (i, &end) in run.ends.iter().enumerate() {
        let number = i + 1;
        let before = &run.text[beside..start];
        test_to_write(version, kind, number, before, &run.text[start..end]).map_err(
            |why| Refusal::new(why, number),
        )?;
        beside = start;
        start = end;
    }
    Ok(())
}

// The reader's test of a field, and then that it can stand in a line.
#[tactic(auto, using(crate::proofs::Walks::test_bad, crate::proofs::Walks::test_good, crate::proofs::Walks::test_other), unfolding(crate::specs::Write::tested_to_write))]
fn test_to_write(
    version: Version,
    kind: Record,
    number: usize,
    beside: &[u8],
    field: &[u8],
) -> Result<(), Reason>
    ensures { result ≡ tested_to_write (profile version kind) number beside.now field.now }
{
    fields::test_field(version, kind, number, beside, field)?;
    if all_plain(field) {
        return Ok(());
    }
    Err(Reason::FieldForm)
}

// Whether every byte may stand in a field.
#[tactic(auto, using(text::proofs::Scans::all_on, text::proofs::Scans::all_stops, text::proofs::Scans::all_ends))]
fn all_plain(field: &[u8]) -> bool
    ensures { result ≡ all plain field.now }
{
    field.iter().all(|&b| is_plain(b))
}

#[tactic(auto, using(text::proofs::Choices::test_fails, text::proofs::Choices::test_holds))]
fn is_plain(b: u8) -> bool
    ensures { result ≡ plain b }
{
    text::is_text_byte(b) && b != b';'
}
