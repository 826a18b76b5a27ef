// The calls on a whole file.
ghost use Rattle.std.specs.Prelude.{length};
ghost use Rattle.peliranopi.specs.Calls.{JudgeTells, PurposeTells};

#[unsafe(no_mangle)]
pub extern "C" fn peliranopi_judge(
    file: &[u8],
    countries: &[u8],
    list: &mut [u32],
    lines: &mut usize,
    parcels: &mut usize,
    cents: &mut u64,
    place: &mut usize,
) -> u32
    ensures { JudgeTells file.now (record { countries = countries.now; words = length list.old }) result
        lines.new parcels.new cents.new place.new list.new }
{
    peliranopi::peliranopi_judge(file, countries, list, lines, parcels, cents, place)
}

#[unsafe(no_mangle)]
pub extern "C" fn peliranopi_write_purpose(
    file: &[u8],
    countries: &[u8],
    line: usize,
    list: &mut [u32],
    output: &mut [u8],
    written: &mut usize,
    place: &mut usize,
) -> u32
    ensures { PurposeTells file.now line (record { countries = countries.now; words = length list.old })
        output.old result written.new place.new list.new output.new }
{
    peliranopi::peliranopi_write_purpose(file, countries, line, list, output, written, place)
}
