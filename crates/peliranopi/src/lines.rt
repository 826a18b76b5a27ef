// The calls on one line: read, searched and written.
ghost use Rattle.peliranopi.specs.Calls.{LineTells, FieldTells, WriteTells};

use crate::tell;

pub fn peliranopi_read_line(
    version: u32,
    file: &[u8],
    offset: usize,
    kind: &mut u32,
    fields: &mut usize,
    next: &mut usize,
    place: &mut usize,
) -> u32
    ensures { LineTells version file.now offset result kind.new fields.new next.new place.new }
{
    let answer = line::read_line(version, file, offset);
    *kind = answer.map_or(0, |line| line.kind as u32);
    *fields = answer.map_or(0, |line| line.count);
    *next = answer.map_or(0, |line| line.next);
    tell::told(answer, place)
}

pub fn peliranopi_find_field(
    version: u32,
    file: &[u8],
    offset: usize,
    number: usize,
    start: &mut usize,
    long: &mut usize,
    place: &mut usize,
) -> u32
    ensures { FieldTells version file.now offset number result start.new long.new place.new }
{
    let answer = line::find_field(version, file, offset, number);
    *start = answer.map_or(0, |span| span.start);
    *long = answer.map_or(0, |span| span.long);
    tell::told(answer, place)
}

pub fn peliranopi_write_line(
    version: u32,
    kind: u32,
    text: &[u8],
    ends: &[usize],
    output: &mut [u8],
    fill: usize,
    written: &mut usize,
    place: &mut usize,
) -> u32
    ensures { WriteTells version kind text.now ends.now output.old fill result
        written.new place.new output.new }
{
    let answer = writer::write_line(version, kind, text, ends, output, fill);
    *written = answer.unwrap_or(0);
    tell::told(answer, place)
}
