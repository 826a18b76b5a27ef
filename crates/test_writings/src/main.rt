// Writes lines: each line of the input is a version, a record number, a fill, a room for output, how many field ends, the ends, each with a
// space behind it, and the text. Each gives the answer and the whole output, which was all points before.
#![tactic(auto)]

use std::fmt::Write;
use std::io::{Eprint, Print};
use test_input::{No, Sayer};

fn main(rt: HostRuntime) {
    let mut buffer = [0u8; 65536];
    match streams::read_input(&mut rt.stdin(), &mut buffer) {
        Ok(n) => run(&rt, &buffer[..n]),
        Err(error) => streams::fail(&rt, "standard input", error),
    }
}

// An empty line ends the input.
fn run<R: Print + Eprint>(rt: &R, input: &[u8]) {
    for line in input.split_inclusive(|&b| b == b'\n') {
        let line = line.strip_suffix(b"\n".as_slice()).unwrap_or(line);
        if line.is_empty() {
            return;
        }
        one_call(rt, line);
    }
}

fn one_call<R: Print + Eprint>(rt: &R, line: &[u8]) {
    let mut rest = line;
    let version = (take_number(&mut rest) % 1000) as u32;
    let number = (take_number(&mut rest) % 1000) as u32;
    let fill = take_number(&mut rest);
    let room = take_number(&mut rest) % 5001;
    let count = take_number(&mut rest) % 65;
    let mut ends = [0usize; 64];
    for end in &mut ends[..count] {
        *end = take_number(&mut rest);
    }
    let mut written = [b'.'; 5000];
    let written = &mut written[..room];
    let _ = match writer::write_line(version, number, rest, &ends[..count], written, fill) {
        Ok(n) => write!(Sayer(rt), "written {n} "),
        Err(refusal) => write!(Sayer(rt), "{} ", No(refusal)),
    };
    streams::say(rt, written);
    streams::say(rt, b"\n");
}

// Takes the number at the front of what is left of a line, and the byte that ends it.
fn take_number(rest: &mut &[u8]) -> usize {
    let given = test_input::number(rest, 0);
    *rest = &rest[given.next..];
    given.value
}
