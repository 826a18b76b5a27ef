// One line from a record's number and its fields, in the order of the refusals.
ghost use Rattle.std.specs.Prelude.{◌≡◌, true, ◌+◌, ◌≤◌, length, Some};
ghost use Rattle.records.specs.Record.{type_of, count_fits};
ghost use Rattle.fields.specs.Profile.{profile};
ghost use Rattle.line.specs.Render.{plain, all_in};
ghost use Rattle.writer.specs.Write.{record_numbered, between, walked, of_fields, after_walk, of_record, line_to, Writes};

use crate::run::FieldRun;
use crate::{put, test};
use records::{Record, Version};
use refusal::{Reason, Refusal};

// Writes the line of the record with this number, under the rules of the version with its number. Its fields stand one behind the
// other in the text and end at these ends; it goes into the output from its fill on.
#[tactic(auto, using(records::proofs::Versions::under_neither, records::proofs::Versions::under_either, crate::proofs::Answers::number_unknown, crate::proofs::Answers::number_known, crate::proofs::Answers::output_stays, crate::proofs::Answers::output_after_lem), unfolding(crate::specs::Write::write_answer))]
pub fn write_line(
    version: u32,
    number: u32,
    text: &[u8],
    ends: &[usize],
    output: &mut [u8],
    fill: usize,
) -> Result<usize, Refusal>
    ensures { Writes version number text.now ends.now output.old fill result output.new }
{
    let told = records::version_numbered(version);
    let version = told.ok_or(Refusal::new(Reason::UnknownVersion, 0))?;
    let kind = record_numbered(number).ok_or(Refusal::new(Reason::UnknownRecord, 0))?;
    of_record(version, kind, text, ends, output, fill)
}

// The same for a record that is known.
#[tactic(auto, using(crate::proofs::Answers::ends_wrong, crate::proofs::Answers::ends_held, crate::proofs::Answers::count_wrong, crate::proofs::Answers::count_right, crate::proofs::Answers::counted))]
fn of_record(
    version: Version,
    kind: Record,
    text: &[u8],
    ends: &[usize],
    output: &mut [u8],
    fill: usize,
) -> Result<usize, Refusal>
    ensures { (result ≡ of_record (profile version) (Some kind) text.now ends.now (length output.old) fill)
        × (output.new ≡ line_to result kind (between text.now ends.now) output.old fill) }
{
    let run = FieldRun::new(text, ends).ok_or(Refusal::new(Reason::FieldEnds, 0))?;
    if !records::count_fits(kind, ends.len()) {
        return Err(Refusal::new(Reason::FieldCount, 0));
    }
    of_counted(version, kind, run, output, fill)
}

// The same for as many fields as the record may have.
#[tactic(auto, using(crate::proofs::Answers::field_wrong, crate::proofs::Answers::fields_plain, crate::proofs::Answers::fields_good, crate::proofs::Answers::line_small))]
fn of_counted(
    version: Version,
    kind: Record,
    run: FieldRun<'_>,
    output: &mut [u8],
    fill: usize,
) -> Result<usize, Refusal>
    requires { count_fits kind (length run.ends.now) ≡ true }
    ensures { (result ≡ after_walk (walked (profile version kind) 1 (type_of kind) (between run.entry.text.now run.entry.ends.now)) kind
        (between run.entry.text.now run.entry.ends.now) (length output.old) fill)
        × (output.new ≡ line_to result kind (between run.entry.text.now run.entry.ends.now) output.old fill) }
{
    test::walk_fields(version, kind, run)?;
    // No allowed line is longer than 4,045 bytes.
    let mut line = [0u8; 4096];
    write_fields(kind, run, &mut line, output, fill)
}

// The record with this number.
#[tactic(auto, using(crate::proofs::Answers::number_is, crate::proofs::Answers::number_none), unfolding(crate::specs::Write::record_numbered))]
fn record_numbered(number: u32) -> Option<Record>
    ensures { result ≡ record_numbered number }
{
    match number {
        10 => Some(Record::Header),
        20 => Some(Record::Sender),
        30 => Some(Record::Shipment),
        40 => Some(Record::Parcel),
        50 => Some(Record::Product),
        60 => Some(Record::Feature),
        _ => None,
    }
}

// The same for fields that are good. The line is put together aside: the reader's rule of needed fields asks a line, and a refusal
// must leave the output as it was.
#[tactic(auto, using(crate::proofs::Answers::line_long, crate::proofs::Answers::text_long, crate::proofs::Answers::fields_lack, crate::proofs::Answers::fill_past, crate::proofs::Answers::too_short, crate::proofs::Answers::has_room, crate::proofs::Answers::line_there))]
fn write_fields(
    kind: Record,
    run: FieldRun<'_>,
    line: &mut [u8],
    output: &mut [u8],
    fill: usize,
) -> Result<usize, Refusal>
    requires { (length run.text.now + length run.ends.now + 5 ≤ length line.old)
        × (all_in plain (between run.text.now run.ends.now) ≡ true) }
    ensures { (result ≡ of_fields kind (between run.entry.text.now run.entry.ends.now) (length output.old) fill)
        × (output.new ≡ line_to result kind (between run.entry.text.now run.entry.ends.now) output.old fill) }
{
    let long = put::put_line(line, kind, run);
    if line::lacks_field(kind, &line[..long - 2]) {
        return Err(Refusal::new(Reason::FeatureLacks, 0));
    }
    if output.len() < fill || output.len() - fill < long {
        return Err(Refusal::new(Reason::OutputTooShort, 0));
    }
    text::place(output, fill, &line[..long]);
    Ok(long)
}
