// The calls on one line: read, searched and written.
ghost use Rattle.peliranopi.specs.Calls.{LineTells, FieldTells, WriteTells};

#[unsafe(no_mangle)]
pub extern "C" fn peliranopi_read_line(
    version: u32,
    file: &[u8],
    offset: usize,
    kind: &mut u32,
    fields: &mut usize,
    next: &mut usize,
    place: &mut usize,
) -> u32
    ensures { LineTells version file.now offset result kind.new fields.new next.new place.new }
{
    peliranopi::peliranopi_read_line(version, file, offset, kind, fields, next, place)
}

#[unsafe(no_mangle)]
pub extern "C" fn peliranopi_find_field(
    version: u32,
    file: &[u8],
    offset: usize,
    number: usize,
    start: &mut usize,
    long: &mut usize,
    place: &mut usize,
) -> u32
    ensures { FieldTells version file.now offset number result start.new long.new place.new }
{
    peliranopi::peliranopi_find_field(version, file, offset, number, start, long, place)
}

#[unsafe(no_mangle)]
pub extern "C" fn peliranopi_write_line(
    version: u32,
    kind: u32,
    text: &[u8],
    ends: &[usize],
    output: &mut [u8],
    fill: usize,
    written: &mut usize,
    place: &mut usize,
) -> u32
    ensures { WriteTells version kind text.now ends.now output.old fill result
        written.new place.new output.new }
{
    peliranopi::peliranopi_write_line(version, kind, text, ends, output, fill, written, place)
}
