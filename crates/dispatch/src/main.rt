// Judges the file on standard input: prints `ok LINES PARCELS CENTS` or `no NUMBER PLACE`, in one write. The buffer holds one byte more
// than a file may have, so that a longer input is seen to be one. An input that could not be read whole has no answer. The list
// of countries that it lends is empty: no sender needs contacts.
#![tactic(auto)]

ghost use Rattle.std.specs.Prelude.{◌≡◌, take, IfSome, OnOk};
ghost use Rattle.std.specs.Io.KnownBytes.{Appends};
ghost use Rattle.streams.specs.Counts.{IsPrefixLen};
ghost use Rattle.dispatch.specs.Answer.{answer_to, ok_line, no_line};

use file::Totals;
use refusal::Refusal;
use std::io;
use std::io::{Eprint, Read, Write};

fn main(rt: HostRuntime) {
    let _ = judge_input(&rt, &mut rt.stdin(), &mut rt.stdout());
}

// Reads a file, and prints the answer to it. What fails is told on standard error.
fn judge_input<R: Eprint, I: Read, W: Write>(
    rt: &R,
    input: &mut I,
    output: &mut W,
) -> io::Result<()>
    ensures { OnOk result (IfSome (I.remaining input.old)
        (λ file. Appends (W.contents output.old) (W.contents output.new) (answer_to file))) }
{
    let mut buffer = [0u8; 65536];
    let n = streams::read_input(input, &mut buffer).inspect_err(|error| streams::fail(
        rt,
        "standard input",
        *error,
    ))?;
    let mut line = [0u8; 72];
    let end = answer(&buffer[..n], &mut line);
    streams::write_out(rt, output, &line[..end])
}

// Puts the answer at the line's front; answers how long it is.
fn answer(s: &[u8], line: &mut [u8; 72]) -> usize
    ensures fits { IsPrefixLen result line.new }
    ensures told { take result line.new ≡ answer_to s.now }
{
    let mut list = [0u32; 4096];
    match file::judge(s, b"", &mut list) {
        Ok(totals) => say_ok(totals, line),
        Err(refusal) => say_no(refusal, line),
    }
}

fn say_ok(totals: Totals, line: &mut [u8; 72]) -> usize
    ensures fits { IsPrefixLen result line.new }
    ensures told { take result line.new ≡ ok_line totals }
{
    let counts = [totals.lines as u64, totals.parcels as u64, totals.cents];
    streams::put_numbers(line, b"ok", &counts)
}

fn say_no(refusal: Refusal, line: &mut [u8; 72]) -> usize
    ensures fits { IsPrefixLen result line.new }
    ensures told { take result line.new ≡ no_line refusal }
{
    let number = u64::from(refusal::number(refusal.why));
    streams::put_numbers(line, b"no", &[number, refusal.place as u64])
}

#[cfg(test)]
mod tests {
    use super::*;
    use std::test::Fail;

    #[test]
    fn a_file_that_is_too_long(rt: HostRuntime) -> Result<(), Fail> {
        let file = [b'0'; 70000];
        let mut input: &[u8] = &file;
        let mut output = Vec::new(rt.alloc());
        assert!(rt; judge_input(&rt, &mut input, &mut output).is_ok());
        assert_eq!(rt; output.as_slice(), b"no 1 65535\n".as_slice());
        Ok(())
    }
}
