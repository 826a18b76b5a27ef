// The payment purpose of a line of a file: the file judged, the text's source found, the text written.
ghost use Rattle.std.specs.Prelude.{length};
ghost use Rattle.purpose.specs.Purpose.{Purposes};

use crate::cut::PURPOSE_LONG;
use crate::{cut, source};
use refusal::{Reason, Refusal};

// Writes the purpose of the line with this number at the output's start. Written, the list is as for the whole file; otherwise all
// its words are 0 and the output is as it was.
#[tactic(auto, using(crate::proofs::Answering::lines_fit, crate::proofs::Answering::file_answer, crate::proofs::Answering::file_list, crate::proofs::Answering::not_there, crate::proofs::Answering::too_short, crate::proofs::Answering::was_written, crate::proofs::Answering::cleared, crate::proofs::Answering::text_there))]
pub fn write_purpose(
    file: &[u8],
    countries: &[u8],
    line: usize,
    list: &mut [u32],
    output: &mut [u8],
) -> Result<usize, Refusal>
    ensures { Purposes file.now line (record { countries = countries.now; words = length list.old })
        output.old result list.new output.new }
{
    let totals = file::judge(file, countries, list)?;
    let Some(source) = source::find_source(file, list, totals.lines, line) else {
        file::clear(list);
        return Err(Refusal::new(Reason::NotThere, 0));
    };
    if output.len() < PURPOSE_LONG {
        file::clear(list);
        return Err(Refusal::new(Reason::OutputTooShort, 0));
    }
    Ok(cut::write_source(file, source, output))
}
