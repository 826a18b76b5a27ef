// What the programs read and write. A read that fails is no end of the input, and one that a signal interrupted is made again.
#![tactic(auto)]

ghost use Rattle.std.specs.Prelude.{◌≡◌, ◌+◌, ◌*◌, ◌<◌, ◌≤◌, ◌∷◌, ◌++◌, length, take, OnOk};
ghost use Rattle.std.specs.Fmt.{decimal};
ghost use Rattle.std.specs.Io.KnownBytes.{Appends};
ghost use Rattle.streams.specs.Counts.{IsPrefixLen};
ghost use Rattle.streams.specs.Lines.{Adds, AddsAll, numbers, runs};
ghost use Rattle.streams.specs.Reads.{Held, HeldPiece, Means, Took, TookPiece};

use itoa::Buffer;
use std::io;
use std::io::{Eprint, Error, ErrorKind, Print, Read, Write};

// Reads until the input ends or the buffer is full, and answers how many bytes of the buffer are the input. A proved loop has to end, and
// signals need not: so it counts its turns, up to a number that no run reaches.
#[tactic(auto, using(crate::proofs::Filling::consumes_on))]
pub fn read_input<R: Read>(reader: &mut R, buffer: &mut [u8]) -> io::Result<usize>
    ensures held { Held result buffer.new }
    ensures took { Took (R.remaining reader.old) (R.remaining reader.new) result buffer.new }
{
    let mut there: usize = 0;
    'turns: for _ in 0..u64::MAX {
        if there == buffer.len() {
            return Ok(there);
        }
        let Some(n) = read_piece(reader, &mut buffer[there..])? else {
            return Ok(there);
        };
        there += n;
    }
    Err(Error::other("the reads do not end"))
}

// Reads once, into a buffer that is not empty: so many bytes at its front, none where a signal interrupted the read, and `None` where the
// input has ended.
pub fn read_piece<R: Read>(reader: &mut R, buffer: &mut [u8]) -> io::Result<Option<usize>>
    ensures held { HeldPiece result buffer.new }
    ensures took { TookPiece (R.remaining reader.old) (R.remaining reader.new) result buffer.new }
{
    meaning(reader.read(buffer))
}

// What a read means.
fn meaning(read: io::Result<usize>) -> io::Result<Option<usize>>
    ensures { Means read result }
{
    match read {
        Ok(0) => Ok(None),
        Ok(n) => Ok(Some(n)),
        Err(error) if error.kind() == ErrorKind::Interrupted => Ok(Some(0)),
        Err(error) => Err(error),
    }
}

// Writes to standard output, and says on standard error where that failed.
pub fn say<R: Print + Eprint>(rt: &R, text: &[u8]) {
    let _ = write_out(rt, &mut io::writer(rt), text);
}

// The same, for who has to stop where it failed, and to any output.
pub fn write_out<R: Eprint, W: Write>(rt: &R, output: &mut W, text: &[u8]) -> io::Result<()>
    ensures { OnOk result (Appends (W.contents output.old) (W.contents output.new) text.now) }
{
    output
        .write_all(text)
        .inspect_err(|error| fail(rt, "standard output", *error))
}

// Says on standard error what failed, and why.
pub fn fail<R: Eprint>(rt: &R, what: &str, error: Error) {
    let _ = eprintln!(rt; "{what}: {error}");
}

// Says a number's decimal digits.
pub fn say_decimal<R: Print + Eprint>(rt: &R, n: u64) {
    say(rt, Buffer::new().format(n).as_bytes());
}

// Puts a run behind the bytes that a line has, where there is room; answers how many it then has. So a line can be written at once.
// Kept: no heap, and a `write!` to the output makes several writes; `Adds` also speaks of a fill behind the line's end.
#[tactic(auto, using(crate::proofs::Adding::adds_whole, crate::proofs::Adding::adds_none))]
pub fn add(line: &mut [u8], fill: usize, run: &[u8]) -> usize
    ensures fits { IsPrefixLen result line.new }
    ensures added { Adds line.old fill run.now result line.new }
{
    let room = line.len();
    text::place(line, fill, run);
    if room < fill {
        return room;
    }
    if room - fill < run.len() {
        return fill;
    }
    fill + run.len()
}

// The same for a number's decimal digits.
pub fn add_decimal(line: &mut [u8], fill: usize, n: u64) -> usize
    ensures fits { IsPrefixLen result line.new }
    ensures added { Adds line.old fill (decimal n) result line.new }
    ensures short { length (decimal n) ≤ 20 }
{
    let mut digits = Buffer::new();
    add(line, fill, digits.format(n).as_bytes())
}

// Puts a word and numbers, each behind a space, and a line feed at the line's front; answers how long they are. The line has room for
// them where it has 21 bytes for each number. A run that it has no room for is left out.
#[tactic(auto, using(crate::proofs::Listing::listing_none))]
pub fn put_numbers(line: &mut [u8], word: &[u8], values: &[u64]) -> usize
    ensures fits { IsPrefixLen result line.new }
    ensures added { AddsAll line.old 0 (word.now ∷ runs values.now) result line.new }
    ensures told { length word.now + 21 * length values.now < length line.old →
        take result line.new ≡ word.now ++ numbers values.now }
{
    let mut fill = add(line, 0, word);
    for value in values {
        fill = add(line, fill, b" ");
        fill = add_decimal(line, fill, *value);
    }
    add(line, fill, b"\n")
}

#[cfg(test)]
mod tests {
    use super::*;
    use std::test::Fail;

    // Gives a byte a read, `a` and so on, but for the reads with these two numbers: a signal interrupts the one, and the other fails.
    #[derive(Drop)]
    struct Reads {
        turn: u8,
        interrupted: u8,
        failing: u8,
    }

    impl Read for Reads {
        fn read(&mut self, buf: &mut [u8]) -> io::Result<usize> {
            let turn = self.turn;
            self.turn = turn.wrapping_add(1);
            if turn == self.interrupted {
                return Err(Error::from(ErrorKind::Interrupted));
            }
            if turn == self.failing {
                return Err(Error::from(ErrorKind::Other));
            }
            if turn > 5 || buf.is_empty() {
                return Ok(0);
            }
            buf[0] = b'a' + turn;
            Ok(1)
        }
    }

    #[test]
    fn an_interrupted_read_is_made_again(rt: HostRuntime) -> Result<(), Fail> {
        let mut reads = Reads {
            turn: 0,
            interrupted: 2,
            failing: 99,
        };
        let mut buffer = [0u8; 8];
        assert_eq!(rt; read_input(&mut reads, &mut buffer).ok(), Some(5));
        assert_eq!(rt; buffer.as_slice(), b"abdef\0\0\0".as_slice());
        Ok(())
    }

    #[test]
    fn a_failed_read_is_no_end(rt: HostRuntime) -> Result<(), Fail> {
        let mut reads = Reads {
            turn: 0,
            interrupted: 1,
            failing: 3,
        };
        let mut buffer = [0u8; 8];
        assert_eq!(rt; read_input(&mut reads, &mut buffer).ok(), None);
        Ok(())
    }

    #[test]
    fn a_full_buffer_ends_the_reading(rt: HostRuntime) -> Result<(), Fail> {
        let mut input: &[u8] = b"twelve bytes";
        let mut buffer = [0u8; 6];
        assert_eq!(rt; read_input(&mut input, &mut buffer).ok(), Some(6));
        assert_eq!(rt; buffer.as_slice(), b"twelve".as_slice());
        assert_eq!(rt; input, b" bytes".as_slice());
        Ok(())
    }

    #[test]
    fn a_line_is_put_together(rt: HostRuntime) -> Result<(), Fail> {
        let mut line = [b'.'; 8];
        let end = add(&mut line, 0, b"no ");
        let number = add_decimal(&mut line, end, 18446744073709551615);
        assert_eq!(rt; number, 3);
        let fits = add_decimal(&mut line, end, 4096);
        assert_eq!(rt; fits, 7);
        assert_eq!(rt; line.as_slice(), b"no 4096.".as_slice());
        Ok(())
    }
}
