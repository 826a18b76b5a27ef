// The calls on a whole file.
ghost use Rattle.std.specs.Prelude.{length};
ghost use Rattle.peliranopi.specs.Calls.{JudgeTells, PurposeTells};

use crate::tell;

pub fn peliranopi_judge(
    file: &[u8],
    countries: &[u8],
    list: &mut [u32],
    lines: &mut usize,
    parcels: &mut usize,
    cents: &mut u64,
    place: &mut usize,
) -> u32
    ensures { JudgeTells file.now (record { countries = countries.now; words = length list.old }) result
        lines.new parcels.new cents.new place.new list.new }
{
    let answer = file::judge(file, countries, list);
    *lines = answer.map_or(0, |totals| totals.lines);
    *parcels = answer.map_or(0, |totals| totals.parcels);
    *cents = answer.map_or(0, |totals| totals.cents);
    tell::told(answer, place)
}

pub fn peliranopi_write_purpose(
    file: &[u8],
    countries: &[u8],
    line: usize,
    list: &mut [u32],
    output: &mut [u8],
    written: &mut usize,
    place: &mut usize,
) -> u32
    ensures { PurposeTells file.now line (record { countries = countries.now; words = length list.old })
        output.old result written.new place.new list.new output.new }
{
    let answer = purpose::write_purpose(file, countries, line, list, output);
    *written = answer.unwrap_or(0);
    tell::told(answer, place)
}
