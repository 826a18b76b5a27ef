// A line put together: its record type, its fields each behind a semicolon, and its end.
ghost use Rattle.std.specs.Prelude.{◌≡◌, ◌+◌, ◌≤◌, length};
ghost use Rattle.text.specs.Placed.{placed};
ghost use Rattle.records.specs.Record.{type_of};
ghost use Rattle.line.specs.Render.{joined, render};
ghost use Rattle.writer.specs.Write.{between};

use crate::run::FieldRun;
use records::Record;

// Puts the line at the front of a room. Answers how long it is.
#[tactic(auto, using(crate::proofs::Puts::line_long, crate::proofs::Puts::line_put))]
pub fn put_line(room: &mut [u8], kind: Record, run: FieldRun<'_>) -> usize
    requires { length run.text.now + length run.ends.now + 5 ≤ length room.old }
    ensures { (result ≡ length (render kind (between run.entry.text.now run.entry.ends.now)))
        × (result ≡ length run.entry.text.now + length run.entry.ends.now + 5)
        × (room.new ≡ placed room.old 0 (render kind (between run.entry.text.now run.entry.ends.now))) }
{
    put_type(room, kind);
    put_fields(room, run);
    let end = run.text.len() + run.ends.len() + 3;
    text::place(room, end, b"\r\n");
    end + 2
}

#[tactic(auto, using(crate::proofs::Puts::type_as))]
fn put_type(room: &mut [u8], kind: Record)
    ensures { room.new ≡ placed room.old 0 (type_of kind) }
{
    match kind {
        Record::Header => text::place(room, 0, b"010"),
        Record::Sender => text::place(room, 0, b"020"),
        Record::Shipment => text::place(room, 0, b"030"),
        Record::Parcel => text::place(room, 0, b"040"),
        Record::Product => text::place(room, 0, b"050"),
        Record::Feature => text::place(room, 0, b"060"),
    }
}

// Puts the fields behind the record type.
#[tactic(auto, using(crate::proofs::Puts::putting_none, crate::proofs::Puts::putting_done, crate::proofs::Puts::next_rises, crate::proofs::Puts::next_inside, crate::proofs::Puts::putting_on))]
fn put_fields(room: &mut [u8], run: FieldRun<'_>)
    requires { length run.text.now + length run.ends.now + 3 ≤ length room.old }
    ensures { room.new ≡ placed room.old 3 (joined (between run.entry.text.now run.entry.ends.now)) }
{
    let mut start = 0;
    for (i, &end) in run.ends.iter().enumerate() {
        text::place(room, start + i + 3, b";");
        text::place(room, start + i + 4, &run.text[start..end]);
        start = end;
    }
}
