// One line of a file, judged behind the lines before it.
ghost use Rattle.std.specs.Prelude.{◌≡◌, ◌*◌, ◌≤◌, length, set, [], ◌∷◌, ◌++◌, Ok};
ghost use Rattle.line.specs.Line.{file_limit, line_answer};
ghost use Rattle.file.specs.Step.{told_by, parcels_in, behind, listed_so_far, has_word, listing, step_answer};
ghost use Rattle.file.specs.Identcode.{parcels_most, Sown};
ghost use Rattle.file.specs.declared.step.State.{State};

use crate::identcode::TREE_WORDS;
use crate::{cash, contact, identcode};
use line::Line;
use records::{Due, Record, Version};
use refusal::{Reason, Refusal};

// Where the judge is: the next line's offset, what the lines so far have, and what the next line's judge is told.
// Kept: that its numbers are small stands in three contracts, and not in the type, for definitions and theorems (`behind`, `step_answer`)
// speak of states of which it is not known.
#[derive(Clone, Copy, Debug, PartialEq, Eq)]
pub struct State {
    pub at: usize,
    pub lines: usize,
    pub parcels: usize,
    pub cents: u64,
    pub version: Version,
    pub due: Due,
    // Whether the last sender has both contacts.
    pub contacts: bool,
}

// Judges the line where the state is, and lists it; the list holds the offsets of the lines before it, and the tree their identcodes.
#[tactic(auto, using(line::proofs::Accepting::text_starts, line::proofs::Accepting::text_inside, line::proofs::Accepting::next_least, crate::proofs::Stepping::was_accepted, crate::proofs::Stepping::line_stops, crate::proofs::Stepping::contact_stops, crate::proofs::Stepping::line_listed, crate::proofs::Stepping::stopped_sown, crate::proofs::Stepping::stopped_listed))]
pub fn one_line(
    file: &[u8],
    countries: &[u8],
    list: &mut [u32],
    codes: &mut [u32; TREE_WORDS],
    state: State,
) -> Result<State, Refusal>
    requires within { (state.at ≤ file_limit) × (state.lines ≤ state.at) × (state.lines ≤ length list.old) × (state.parcels ≤ state.lines)
        × (state.cents ≤ 99999999 * state.lines) }
    requires sown { Sown file.now (listed_so_far state.lines list.old) state.parcels codes.old × (state.parcels ≤ parcels_most) }
    ensures value { result ≡ step_answer file.now (record { countries = countries.now; words = length list.old })
        (listed_so_far state.lines list.old) state }
    ensures sown_after { (next : State) → result ≡ Ok next →
        Sown file.now (listed_so_far state.lines list.old ++ (state.at ∷ [])) next.parcels codes.new }
    ensures listed { (next : State) → result ≡ Ok next → list.new ≡ set list.old state.lines state.at }
{
    let offset = state.at;
    let line = line::judge_line(state.version, state.due, file, offset)?;
    let text = &file[offset..line.next - 2];
    if contact::lacks_contact(line.kind, text, countries, state.contacts) {
        return Err(Refusal::new(Reason::ContactMissing, offset));
    }
    list_line(file, list, codes, state, line)
}

// Lists an accepted line, unless it repeats an identcode or the list has no word for it.
#[tactic(auto, using(crate::proofs::Stepping::word_there, crate::proofs::Stepping::code_stops, crate::proofs::Stepping::stopped_sown, crate::proofs::Stepping::stopped_listed, crate::proofs::Stepping::list_stops, crate::proofs::Stepping::line_next, crate::proofs::Stepping::line_sown))]
fn list_line(
    file: &[u8],
    list: &mut [u32],
    codes: &mut [u32; TREE_WORDS],
    state: State,
    line: Line,
) -> Result<State, Refusal>
    requires accepted { (line_answer (told_by state) file.now state.at ≡ Ok line) × (state.at ≤ file_limit) × (state.lines ≤ state.at)
        × (state.lines ≤ length list.old) × (state.parcels ≤ state.lines) × (state.cents ≤ 99999999 * state.lines) }
    requires sown { Sown file.now (listed_so_far state.lines list.old) state.parcels codes.old × (state.parcels ≤ parcels_most) }
    ensures value { result ≡ listing file.now (length list.old) (listed_so_far state.lines list.old) state line }
    ensures sown_after { (next : State) → result ≡ Ok next →
        Sown file.now (listed_so_far state.lines list.old ++ (state.at ∷ [])) next.parcels codes.new }
    ensures listed { (next : State) → result ≡ Ok next → list.new ≡ set list.old state.lines state.at }
{
    let offset = state.at;
    if identcode::is_repeated(line.kind, file, codes, state.parcels, offset) {
        return Err(Refusal::new(Reason::IdentcodeRepeated, offset + 4));
    }
    if !has_word(list, state.lines) {
        return Err(Refusal::new(Reason::ListFull, offset));
    }
    list[state.lines] = offset as u32;
    Ok(behind_line(file, state, line))
}

// Whether the list has a word for the line behind so many.
#[tactic(auto, unfolding(crate::specs::Step::has_word))]
fn has_word(list: &[u32], lines: usize) -> bool
    ensures { result ≡ has_word (length list.now) lines }
{
    lines < list.len()
}

// The state behind an accepted line.
#[tactic(auto, using(crate::proofs::Stepping::behind_starts, crate::proofs::Stepping::behind_inside, crate::proofs::Stepping::behind_least, crate::proofs::Stepping::behind_is))]
fn behind_line(file: &[u8], state: State, line: Line) -> State
    requires { (line_answer (told_by state) file.now state.at ≡ Ok line) × (state.at ≤ file_limit) × (state.lines ≤ state.at)
        × (state.parcels ≤ state.lines) × (state.cents ≤ 99999999 * state.lines) }
    ensures { result ≡ behind file.now state line }
{
    let kind = line.kind;
    let text = &file[state.at..line.next - 2];
    State {
        at: line.next,
        lines: state.lines + 1,
        parcels: state.parcels + parcels_in(kind),
        cents: state.cents + cash::cash_of(kind, text),
        due: Due::After(kind),
        contacts: contact::contacts_behind(kind, text, state.contacts),
        ..state
    }
}

// 1 for a parcel, 0 for any other record.
fn parcels_in(kind: Record) -> usize
    ensures { (result ≡ parcels_in kind) × (result ≤ 1) }
{
    usize::from(kind == Record::Parcel)
}
