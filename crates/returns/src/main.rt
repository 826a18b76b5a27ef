// The returns bench: tracking numbers one a line on standard input, their answers one a line on standard output, each as soon as its line
// is there, and at the end a line `counts LINES PASSED LENGTH SYMBOL CHECK`. Where a read or a write fails it says so, prints no counts and
// stops.
#![tactic(auto)]

ghost use Rattle.std.specs.Prelude.{◌<◌, ◌≤◌, length, map, take, IfOk, IfSome, OnOk};
ghost use Rattle.std.specs.Io.KnownBytes.{Appends};
ghost use Rattle.scans.specs.Scans.{whole_lines, line_answer, printed};
ghost use Rattle.returns.specs.Output.{counts_line, ending, printed_of};
ghost use Rattle.returns.specs.Turns.{Tells, Says, Leaves, Turned, waiting_answers};

use scans::Tally;
use std::io;
use std::io::{Eprint, Error, Read, Write};

// Between two reads: how many bytes at the buffer's front wait for the rest of their line, and the counts of the lines so far.
#[derive(Clone, Copy, Debug, Default)]
struct Bench {
    waiting: usize,
    counts: Tally,
}

// What was said of a text: the answers of its whole lines, which end at a place.
#[derive(Clone, Copy, Debug)]
struct Told {
    next: usize,
    counts: Tally,
}

fn main(rt: HostRuntime) {
    let _ = answer_input(&rt, &mut rt.stdin(), &mut rt.stdout());
}

// Answers an input to its end. What fails is told on standard error. A proved loop has to end, and lines need not: so it counts its turns,
// up to a number that no run reaches.
#[tactic(auto, using(crate::proofs::Saying::nothing_done, crate::proofs::Saying::done_on))]
fn answer_input<R: Eprint, I: Read, W: Write>(
    rt: &R,
    input: &mut I,
    output: &mut W,
) -> io::Result<()>
    ensures { OnOk result (IfSome (I.remaining input.old)
        (λ bytes. Appends (W.contents output.old) (W.contents output.new) (printed_of bytes))) }
{
    let mut buffer = [0u8; 65536];
    let mut bench = Bench::default();
    'turns: for _ in 0..u64::MAX {
        match take_turn(rt, input, output, &mut buffer, bench)? {
            Some(next) => bench = next,
            None => return Ok(()),
        }
    }
    Err(Error::other("the lines do not end"))
}

// Reads once, and answers what is there; `None` where that was the end: all is answered then, and the counts are said.
#[tactic(auto, using(crate::proofs::Leaving::turns_on))]
fn take_turn<R: Eprint, I: Read, W: Write>(
    rt: &R,
    input: &mut I,
    output: &mut W,
    buffer: &mut [u8],
    bench: Bench,
) -> io::Result<Option<Bench>>
    requires few { bench.waiting ≤ 17 }
    requires room { 18 ≤ length buffer.old }
    ensures { Turned (I.remaining input.old) (W.contents output.old) (I.remaining input.new) (W.contents output.new)
        (take bench.waiting buffer.old) bench.counts result buffer.new }
{
    let waiting = bench.waiting;
    let piece = streams::read_piece(input, &mut buffer[waiting..]).inspect_err(
        |error| streams::fail(rt, "standard input", *error),
    )?;
    let Some(n) = piece else {
        answer_last(rt, output, buffer, waiting, bench.counts)?;
        return Ok(None);
    };
    let next = answer_more(rt, output, buffer, waiting + n, bench.counts)?;
    Ok(Some(next))
}

// Answers the whole lines, and keeps what stands behind the last of them.
#[tactic(auto, using(crate::proofs::Leaving::leaves_on), unfolding(crate::specs::Turns::Tells, crate::specs::Turns::Says))]
fn answer_more<R: Eprint, W: Write>(
    rt: &R,
    output: &mut W,
    buffer: &mut [u8],
    there: usize,
    before: Tally,
) -> io::Result<Bench>
    ensures few { IfOk result (λ bench. bench.waiting ≤ 17) }
    ensures leaves { IfOk result (λ bench. Leaves (take there buffer.old) before bench buffer.new) }
    ensures said { OnOk result (Appends (W.contents output.old) (W.contents output.new)
        (printed (map line_answer (whole_lines (take there buffer.old))))) }
{
    let told = answer_whole(rt, output, text::clip(buffer, 0, there), before)?;
    let waiting = scans::keep(buffer, told.next, there);
    Ok(Bench {
        waiting,
        counts: told.counts,
    })
}

// Bytes behind the last line feed are a last line; then the counts are said.
#[tactic(auto, using(crate::proofs::Leaving::ends_on), unfolding(crate::specs::Turns::Tells, crate::specs::Turns::Says))]
fn answer_last<R: Eprint, W: Write>(
    rt: &R,
    output: &mut W,
    buffer: &mut [u8],
    waiting: usize,
    before: Tally,
) -> io::Result<()>
    requires { waiting < length buffer.old }
    ensures { OnOk result (Appends (W.contents output.old) (W.contents output.new)
        (ending before (waiting_answers (take waiting buffer.old)))) }
{
    if waiting == 0 {
        return say_counts(rt, output, before);
    }
    buffer[waiting] = b'\n';
    let told = answer_whole(rt, output, text::clip(buffer, 0, waiting + 1), before)?;
    say_counts(rt, output, told.counts)
}

// Answers the whole lines of a text, up to 1,024 at a time.
#[tactic(auto, unfolding(crate::specs::Turns::Tells, crate::specs::Turns::Says))]
fn answer_whole<R: Eprint, W: Write>(
    rt: &R,
    output: &mut W,
    text: &[u8],
    before: Tally,
) -> io::Result<Told>
    ensures tells { Tells text.now before result }
    ensures says { Says text.now (W.contents output.old) (W.contents output.new) result }
{
    let mut answers = [0u8; 1024];
    let mut counts = before;
    let mut at: usize = 0;
    // Kept: a turn passes over as many bytes as its lines have, and the place behind the last of them is the answer.
    while at < text.len() {
        let answered = scans::answer_lines(&text[at..], &mut answers);
        let n = answered.lines;
        if n == 0 {
            return Ok(Told { next: at, counts });
        }
        say_answers(rt, output, &answers[..n])?;
        counts = scans::count_answers(counts, &answers[..n]);
        at += answered.next;
    }
    Ok(Told { next: at, counts })
}

// Says the answers of at most 1,024 lines, in one write.
fn say_answers<R: Eprint, W: Write>(rt: &R, output: &mut W, answers: &[u8]) -> io::Result<()>
    ensures { OnOk result (length answers.now ≤ 1024 → Appends (W.contents output.old) (W.contents output.new)
        (printed answers.now)) }
{
    let mut lines = [0u8; 3072];
    let n = scans::print_answers(answers, &mut lines);
    streams::write_out(rt, output, &lines[..n])
}

fn say_counts<R: Eprint, W: Write>(rt: &R, output: &mut W, counts: Tally) -> io::Result<()>
    ensures { OnOk result (Appends (W.contents output.old) (W.contents output.new) (counts_line counts)) }
{
    let mut line = [0u8; 128];
    let numbers = [
        counts.lines,
        counts.passed,
        counts.length,
        counts.symbol,
        counts.check,
    ];
    let fill = streams::put_numbers(&mut line, b"counts", &numbers);
    streams::write_out(rt, output, &line[..fill])
}

#[cfg(test)]
mod tests {
    use super::*;
    use std::io::ErrorKind;
    use std::test::Fail;

    // Takes so many writes, and fails then.
    #[derive(Drop)]
    struct Failing {
        writes: u8,
    }

    impl Write for Failing {
        fn write(&mut self, buf: &[u8]) -> io::Result<usize> {
            if self.writes == 0 {
                return Err(Error::from(ErrorKind::Other));
            }
            self.writes -= 1;
            Ok(buf.len())
        }

        fn flush(&mut self) -> io::Result<()> {
            Ok(())
        }
    }

    #[test]
    fn an_input_in_memory(rt: HostRuntime) -> Result<(), Fail> {
        let mut input: &[u8] = b"09980000020041F\r\n0998\n0998";
        let mut output = Vec::new(rt.alloc());
        assert!(rt; answer_input(&rt, &mut input, &mut output).is_ok());
        assert_eq!(rt;
            output.as_slice(),
            b"0\n16\n16\ncounts 3 1 2 0 0\n".as_slice()
        );
        Ok(())
    }

    #[test]
    fn a_failed_write_is_no_end(rt: HostRuntime) -> Result<(), Fail> {
        let mut first: &[u8] = b"0998\n0998";
        assert!(rt; answer_input(&rt, &mut first, &mut Failing { writes: 0 }).is_err());
        let mut last: &[u8] = b"0998\n0998";
        assert!(rt; answer_input(&rt, &mut last, &mut Failing { writes: 2 }).is_err());
        let mut all: &[u8] = b"0998\n0998";
        assert!(rt; answer_input(&rt, &mut all, &mut Failing { writes: 3 }).is_ok());
        Ok(())
    }
}
