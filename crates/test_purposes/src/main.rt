// Runs cases of the payment purpose. Each case of the input is `#`, a line's number, the output's and the list's length, each in two
// digits, a list of countries, a line feed, and a file. Each gives a line: the answer, the whole output, which was full of points,
// and the whole list, which was full of sevens.
#![tactic(auto)]

ghost use Rattle.std.specs.Prelude.{◌≤◌};

use std::fmt::Write;
use std::io::{Eprint, Print};
use test_input::{No, Sayer};

fn main(rt: HostRuntime) {
    let mut buffer = [0u8; 65536];
    match streams::read_input(&mut rt.stdin(), &mut buffer) {
        Ok(n) => run(&rt, &buffer[..n]),
        Err(error) => streams::fail(&rt, "standard input", error),
    }
}

fn run<R: Print + Eprint>(rt: &R, input: &[u8]) {
    for case in input.split(|&b| b == b'#') {
        run_case(rt, case);
    }
}

// Nothing stands in front of the first `#`.
fn run_case<R: Print + Eprint>(rt: &R, case: &[u8]) {
    let [n1, n2, _, o1, o2, _, w1, w2, _, rest @ ..] = case else {
        return;
    };
    let Some(end) = rest.iter().position(|&b| b == b'\n') else {
        return;
    };
    let mut output = [b'.'; 40];
    let mut list = [7u32; 20];
    let room = two_digits(*o1, *o2).min(40);
    let words = two_digits(*w1, *w2).min(20);
    let answer = purpose::write_purpose(
        &rest[end + 1..],
        &rest[..end],
        two_digits(*n1, *n2),
        &mut list[..words],
        &mut output[..room],
    );
    let _ = match answer {
        Ok(n) => write!(Sayer(rt), "ok {n} |"),
        Err(refusal) => write!(Sayer(rt), "{} |", No(refusal)),
    };
    streams::say(rt, &output);
    streams::say(rt, b"|");
    for word in list {
        streams::say(rt, b" ");
        streams::say_decimal(rt, u64::from(word));
    }
    streams::say(rt, b"\n");
}

fn two_digits(tens: u8, ones: u8) -> usize {
    10 * digit(tens) + digit(ones)
}

// The value of a digit, and 0 for any other byte.
fn digit(b: u8) -> usize
    ensures { result ≤ 9 }
{
    match b {
        b'0'..=b'9' => usize::from(b - b'0'),
        _ => 0,
    }
}
