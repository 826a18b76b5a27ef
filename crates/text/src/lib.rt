// Bytes and runs of bytes: the classes of a byte, two runs compared, and a run written into an output. What every crate of
// the desk stands on.
#![tactic(auto)]

ghost use Rattle.std.specs.Prelude.{◌≡◌, ◌+◌, ◌≤◌, eqb, length, take, drop, if◌then◌else◌};
ghost use Rattle.text.specs.Byte.{digit, capital, small, symbol, text_byte, purpose_byte, in_class};
ghost use Rattle.text.specs.Scan.{all, count, among, same, in_line, line_feed};
ghost use Rattle.text.specs.Placed.{placed, written};

// The classes that a form asks of every byte.
// Kept: a name and not a closure, for a contract can say which class it is, and a form's call reads as the form does.
#[derive(Clone, Copy, Debug, PartialEq, Eq)]
pub enum Class {
    Digit,
    Capital,
    // A capital or a digit.
    Symbol,
    // What may stand in a payment purpose.
    Purpose,
}

// Whether every byte of a run is of a class.
pub fn all_in(class: Class, s: &[u8]) -> bool
    ensures { result ≡ all (in_class class) s.now }
{
    s.iter().all(|&b| is_in(class, b))
}

// Whether a byte is of a class.
fn is_in(class: Class, b: u8) -> bool
    ensures { result ≡ in_class class b }
{
    match class {
        Class::Digit => is_digit(b),
        Class::Capital => is_capital(b),
        Class::Symbol => is_symbol(b),
        Class::Purpose => is_purpose_byte(b),
    }
}

// Whether a byte is one of 0 to 9.
// Kept: this, `is_capital` and `is_small` are a range each; one function that is given the ends would be no plainer.
pub fn is_digit(b: u8) -> bool
    ensures { result ≡ digit b }
{
    matches!(b, b'0'..=b'9')
}

// Whether a byte is one of A to Z.
pub fn is_capital(b: u8) -> bool
    ensures { result ≡ capital b }
{
    matches!(b, b'A'..=b'Z')
}

// Whether a byte is a capital or a digit.
pub fn is_symbol(b: u8) -> bool
    ensures { result ≡ symbol b }
{
    is_digit(b) || is_capital(b)
}

// Whether a byte may stand in a file's text: 32 to 126 (space to `~`), and 160 to 255.
pub fn is_text_byte(b: u8) -> bool
    ensures { result ≡ text_byte b }
{
    matches!(b, b' '..=b'~' | 160..)
}

// Whether a byte may stand in a payment purpose.
fn is_purpose_byte(b: u8) -> bool
    ensures { result ≡ purpose_byte b }
{
    is_small(b) || is_symbol(b) || b".,:'+-/()? ".contains(&b)
}

// Whether a byte is one of a to z.
fn is_small(b: u8) -> bool
    ensures { result ≡ small b }
{
    matches!(b, b'a'..=b'z')
}

// How many of the bytes are this one.
// Kept: a sum, and no `filter` with `count`, which parts its ways at each byte: where such bytes come at random, that took several times as long.
#[tactic(auto, using(crate::proofs::Scans::count_on, crate::proofs::Scans::count_ends))]
pub fn count_of(mark: u8, s: &[u8]) -> usize
    ensures { result ≡ count (λ b. eqb b mark) s.now }
{
    let mut n = 0;
    for &b in s {
        n += usize::from(b == mark);
    }
    n
}

// The next line feed from a place on, or the end of the run.
pub fn line_feed(s: &[u8], start: usize) -> usize
    ensures { (result ≡ line_feed s.now start) × (result ≤ length s.now) }
{
    for i in start..s.len() {
        if s[i] == b'\n' {
            return i;
        }
    }
    s.len()
}

// Whether two runs are equal, byte for byte.
pub fn equal(a: &[u8], b: &[u8]) -> bool
    ensures { result ≡ same a.now b.now }
{
    a == b
}

// Writes src into out from the place at on, where it fits there; otherwise out stays as it was.
// Kept: byte by byte, and no `copy_from_slice`, which has a caller in C bring `memmove`.
#[tactic(auto, using(crate::proofs::Placing::copy_done), unfolding(crate::specs::Placed::placed))]
pub fn place(out: &mut [u8], at: usize, src: &[u8])
    ensures { out.new ≡ placed out.old at src.now }
{
    if out.len() < at {
        return;
    }
    if out.len() - at < src.len() {
        return;
    }
    for (i, &b) in src.iter().enumerate() {
        out[at + i] = b;
    }
}

// The n bytes from the place at on, or as many of them as there are.
pub fn clip(s: &[u8], at: usize, n: usize) -> &[u8]
    ensures { result.now ≡ take n (drop at s.now) }
{
    let rest = s.get(at..).unwrap_or(&[]);
    rest.get(..n).unwrap_or(rest)
}
