// What every call tells: its number, and the place behind a pointer.
ghost use Rattle.refusal.specs.Table.{verdict_on};
ghost use Rattle.peliranopi.specs.Calls.{Tells};

use refusal::Refusal;

// Accepted: 0, and no place. Refused: the refusal's number, and its place.
pub fn told<T: Copy>(answer: Result<T, Refusal>, place: &mut usize) -> u32
    ensures { Tells (verdict_on answer) result place.new }
{
    match answer {
        Ok(_) => {
            *place = 0;
            0
        }
        Err(refusal) => {
            *place = refusal.place;
            refusal::number(refusal.why)
        }
    }
}
