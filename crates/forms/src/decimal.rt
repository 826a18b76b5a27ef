// The number that a few digits write.
ghost use Rattle.std.specs.Prelude.{◌≡◌, ◌≤◌, length};
ghost use Rattle.text.specs.Decimal.{worth, number};

// At most six digits, so that the number fits.
#[tactic(auto, using(crate::proofs::Decimals::number_steps))]
pub fn number(s: &[u8]) -> u32
    requires { length s.now ≤ 6 }
    ensures { result ≡ number s.now }
{
    let mut n = 0;
    for &b in s {
        n = 10 * n + value(b);
    }
    n
}

// What a digit is worth. The forms are tested elsewhere, so any byte may come.
fn value(b: u8) -> u32
    ensures { (result ≡ worth b) × (result ≤ 207) }
{
    u32::from(b.saturating_sub(b'0'))
}
