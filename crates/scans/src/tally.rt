// The counts of the returns bench: how many lines there were, and how many of them had each answer.
ghost use Rattle.std.specs.Prelude.{◌≡◌};
ghost use Rattle.scans.specs.Tallying.{one_more, with_answer, tallied};

#[derive(Clone, Copy, Debug, Default, PartialEq, Eq)]
pub struct Tally {
    pub lines: u64,
    // Answered 0,
    pub passed: u64,
    // 16,
    pub length: u64,
    // 17
    pub symbol: u64,
    // and 18.
    pub check: u64,
}

// The counts with these answers. No run has so many lines that a count begins again.
#[tactic(auto, using(crate::proofs::Tallying::tally_on, crate::proofs::Tallying::tally_ends))]
pub fn count_answers(before: Tally, answers: &[u8]) -> Tally
    ensures { result ≡ tallied before answers.now }
{
    let mut counts = before;
    for answer in answers {
        counts = with_answer(counts, *answer);
    }
    counts
}

// The counts with one answer more.
// Kept: an answer is the byte that `check_numbers` writes for C, and not an enum.
#[tactic(auto, unfolding(crate::specs::Tallying::with_answer))]
fn with_answer(counts: Tally, answer: u8) -> Tally
    ensures { result ≡ with_answer counts answer }
{
    Tally {
        lines: one_more(counts.lines, true),
        passed: one_more(counts.passed, answer == 0),
        length: one_more(counts.length, answer == 16),
        symbol: one_more(counts.symbol, answer == 17),
        check: one_more(counts.check, answer == 18),
    }
}

// A count with one more, where that is one of its kind.
fn one_more(count: u64, counts: bool) -> u64
    ensures { result ≡ one_more count counts }
{
    if counts {
        return count.wrapping_add(1);
    }
    count
}
