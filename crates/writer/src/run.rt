// The fields of a line that is to be written: they stand one behind the other in a text, and each ends at its end.
ghost use Rattle.std.specs.Prelude.{◌≡◌, true, false, length, IfSome, IfNone};
ghost use Rattle.writer.specs.Write.{ends_hold};

#[derive(Clone, Copy)]
pub(crate) struct FieldRun<'a> {
    pub text: &'a [u8],
    pub ends: &'a [usize],
    // The ends never fall, and the last is the text's length.
    ghost hold: { ends_hold ends.now (length text.now) ≡ true },
}

impl<'a> FieldRun<'a> {
    // The run of a text and its ends; none where these do not hold.
    pub(crate) fn new(text: &'a [u8], ends: &'a [usize]) -> Option<Self>
        ensures some { IfSome result (λ run. (run.text.now ≡ text.now) × (run.ends.now ≡ ends.now) × (ends_hold ends.now (length text.now) ≡ true)) }
        ensures none { IfNone result (ends_hold ends.now (length text.now) ≡ false) }
    {
        if !ends_hold(ends, text.len()) {
            return None;
        }
        Some(FieldRun { text, ends })
    }
}

// Whether the ends never fall and the last is the length of the text.
#[tactic(auto, using(crate::proofs::Ends::ends_on, crate::proofs::Ends::ends_fall, crate::proofs::Ends::ends_end), unfolding(crate::specs::Write::ends_hold))]
fn ends_hold(ends: &[usize], long: usize) -> bool
    ensures { result ≡ ends_hold ends.now long }
{
    let mut start = 0;
    for &end in ends {
        if end < start {
            return false;
        }
        start = end;
    }
    start == long
}
