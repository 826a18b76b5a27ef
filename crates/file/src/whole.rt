// A whole file, judged line by line; the lent list then holds where each line starts.
ghost use Rattle.std.specs.Prelude.{◌≡◌, true, ◌≤◌, length, replicate};
ghost use Rattle.countries.specs.List.{is_paired};
ghost use Rattle.line.specs.Line.{file_limit};
ghost use Rattle.file.specs.File.{Judges};

use crate::identcode::TREE_WORDS;
use crate::step::State;
use crate::{list, step, version};
use line::FILE_LIMIT;
use records::Due;
use refusal::{Reason, Refusal};

#[derive(Clone, Copy, Debug, PartialEq, Eq)]
pub struct Totals {
    pub lines: usize,
    pub parcels: usize,
    pub cents: u64,
}

// Judges a file, with a list of countries into which a sender ships only with phone and mail. Accepted, each word of the list for the
// lines is, below the number of lines, that line's offset, and every other word is 0; refused, all words are 0.
#[tactic(auto, using(crate::proofs::Going::long_judged, crate::proofs::Going::odd_judged, crate::proofs::Going::even_told, crate::proofs::Going::same_judged, crate::proofs::Going::clear_now))]
pub fn judge(file: &[u8], countries: &[u8], list: &mut [u32]) -> Result<Totals, Refusal>
    ensures { Judges file.now (record { countries = countries.now; words = length list.old })
        result list.new }
{
    list::clear(list);
    if FILE_LIMIT < file.len() {
        return Err(Refusal::new(Reason::FileTooLong, FILE_LIMIT));
    }
    if !countries::is_paired(countries) {
        return Err(Refusal::new(Reason::CountriesOdd, 0));
    }
    run(file, countries, list)
}

// The lines of a file that is not too long, with a list that is clear.
#[tactic(auto, using(crate::proofs::Going::going_none, crate::proofs::Going::going_more, crate::proofs::Going::less_left, crate::proofs::Going::few_parcels, crate::proofs::Going::stop_judged, crate::proofs::Going::due_judged, crate::proofs::Going::end_judged))]
fn run(file: &[u8], countries: &[u8], list: &mut [u32]) -> Result<Totals, Refusal>
    requires { (length file.now ≤ file_limit) × (is_paired countries.now ≡ true) × (list.old ≡ replicate (length list.old) 0) }
    ensures { Judges file.now (record { countries = countries.now; words = length list.old })
        result list.new }
{
    // The tree of the identcodes, with room for those of any file.
    let mut codes = [0u32; TREE_WORDS];
    let version = version::version_of(file);
    let mut state = State {
        at: 0,
        lines: 0,
        parcels: 0,
        cents: 0,
        version,
        due: Due::First,
        contacts: true,
    };
    // Kept: where the next line starts is known only once the one before is judged, so that no `for` can go over the lines.
    while state.at < file.len() {
        match step::one_line(file, countries, list, &mut codes, state) {
            Ok(next) => state = next,
            Err(refusal) => {
                list::clear(list);
                return Err(refusal);
            }
        }
    }
    if !records::may_end(state.due) {
        list::clear(list);
        return Err(Refusal::new(Reason::FileEnds, file.len()));
    }
    Ok(Totals {
        lines: state.lines,
        parcels: state.parcels,
        cents: state.cents,
    })
}
