// What checking a number and issuing one answer, and a number written with its check.
ghost use Rattle.std.specs.Prelude.{◌≡◌, ◌+◌, length};
ghost use Rattle.check_characters.specs.Answer.{room_for, issued_to};

use refusal::{Reason, Refusal};

// Writes body and check at the output's start, where there is room for them.
#[tactic(auto, using(crate::proofs::Issuing::writings), unfolding(crate::specs::Answer::issued_to))]
pub fn issue(body: &[u8], check: u8, output: &mut [u8]) -> Result<usize, Refusal>
    ensures { (result ≡ room_for (length body.now + 1) (length output.old))
        × (output.new ≡ issued_to result body.now check output.old) }
{
    let n = body.len();
    if output.len() <= n {
        return Err(Refusal::new(Reason::OutputTooShort, 0));
    }
    text::place(output, 0, body);
    output[n] = check;
    Ok(n + 1)
}
