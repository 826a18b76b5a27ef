// Runs vectors: each line of the input is a letter, a space and a text, and each gives a line with the text and its answer.
// N: a DPD number is checked. B: one is issued from this body. C: the check character is given. I: an IBAN is checked. D: an identcode
// is checked. P: its parts are read. J: one is issued from these digits. K: the carry after one more key is given, where the text is the
// carry before it, a space and the key. T: the text is typed key by key, and the carry after each key is given. A: a day's numbers are
// checked, where the text is how many answer bytes are lent, a space and the numbers; each answer byte is given too.
#![tactic(auto)]

use check_characters::Kind;
use refusal::Refusal;
use std::fmt::Write;
use std::io::{Eprint, Print};
use test_input::{NoBehind, Sayer};

fn main(rt: HostRuntime) {
    let mut buffer = [0u8; 65536];
    match streams::read_input(&mut rt.stdin(), &mut buffer) {
        Ok(n) => run(&rt, &buffer[..n]),
        Err(error) => streams::fail(&rt, "standard input", error),
    }
}

fn run<R: Print + Eprint>(rt: &R, input: &[u8]) {
    for line in input.split_inclusive(|&b| b == b'\n') {
        say(rt, line.strip_suffix(b"\n".as_slice()).unwrap_or(line));
    }
}

fn say<R: Print + Eprint>(rt: &R, line: &[u8]) {
    let [what, _, text @ ..] = line else {
        return streams::say(rt, b"?\n");
    };
    streams::say(rt, text);
    match *what {
        b'N' => say_number(rt, text),
        b'B' => say_issued(rt, text),
        b'C' => say_check(rt, text),
        b'I' => say_checked(rt, check_characters::check_iban(text), b" IBAN\n"),
        b'D' => say_checked(rt, check_digits::check_identcode(text), b" identcode\n"),
        b'P' => say_parts(rt, text),
        b'J' => say_issued_identcode(rt, text),
        b'K' => say_next(rt, text),
        b'T' => say_typed(rt, text),
        b'A' => say_day(rt, text),
        _ => say_unknown(rt),
    }
}

fn say_unknown<R: Print + Eprint>(rt: &R) {
    streams::say(rt, b" ?\n");
}

fn say_no<R: Print + Eprint>(rt: &R, refusal: Refusal) {
    let _ = writeln!(Sayer(rt), "{}", NoBehind(refusal));
}

fn say_number<R: Print + Eprint>(rt: &R, s: &[u8]) {
    match check_characters::check_number(s) {
        Ok(Kind::Tracking) => streams::say(rt, b" tracking number\n"),
        Ok(Kind::Label) => streams::say(rt, b" label code\n"),
        Err(refusal) => say_no(rt, refusal),
    }
}

fn say_issued<R: Print + Eprint>(rt: &R, body: &[u8]) {
    let mut number = [b'.'; 30];
    let answer = check_characters::issue_number(body, &mut number);
    say_output(rt, answer, &number);
}

fn say_issued_identcode<R: Print + Eprint>(rt: &R, body: &[u8]) {
    let mut identcode = [b'.'; 30];
    let answer = check_digits::issue_identcode(body, &mut identcode);
    say_output(rt, answer, &identcode);
}

fn say_output<R: Print + Eprint>(rt: &R, answer: Result<usize, Refusal>, issued: &[u8]) {
    match answer {
        Ok(_) => {
            streams::say(rt, b" ");
            streams::say(rt, issued);
            streams::say(rt, b"\n");
        }
        Err(refusal) => say_no(rt, refusal),
    }
}

fn say_check<R: Print + Eprint>(rt: &R, s: &[u8]) {
    streams::say(rt, b" ");
    streams::say(rt, &[check_characters::check_of(s)]);
    streams::say(rt, b"\n");
}

fn say_checked<R: Print + Eprint>(rt: &R, answer: Result<(), Refusal>, accepted: &[u8]) {
    match answer {
        Ok(()) => streams::say(rt, accepted),
        Err(refusal) => say_no(rt, refusal),
    }
}

fn say_parts<R: Print + Eprint>(rt: &R, s: &[u8]) {
    let parts = match check_digits::read_identcode(s) {
        Ok(parts) => parts,
        Err(refusal) => return say_no(rt, refusal),
    };
    for part in [
        parts.origin,
        parts.customer,
        parts.sequence,
        parts.product,
        parts.destination,
        parts.check,
    ] {
        streams::say(rt, b" ");
        streams::say(rt, text::clip(s, part.start, part.length));
    }
    streams::say(rt, b"\n");
}

fn say_next<R: Print + Eprint>(rt: &R, s: &[u8]) {
    let carry = test_input::number(s, 0);
    let Some(&key) = s.get(carry.next) else {
        return say_unknown(rt);
    };
    say_carry(rt, check_characters::next_carry(carry.value as u32, key));
    streams::say(rt, b"\n");
}

fn say_typed<R: Print + Eprint>(rt: &R, keys: &[u8]) {
    let mut carry = 36;
    for &key in keys {
        let next = check_characters::next_carry(carry, key);
        say_carry(rt, next);
        // Behind a key that is refused the next one has no carry, which 0 is not.
        carry = next.unwrap_or(0);
    }
    streams::say(rt, b"\n");
}

fn say_carry<R: Print + Eprint>(rt: &R, answer: Result<u32, Refusal>) {
    let _ = match answer {
        Ok(carry) => write!(Sayer(rt), " {carry}"),
        Err(refusal) => write!(Sayer(rt), "{}", NoBehind(refusal)),
    };
}

// The answer bytes hold 99 before the call, so that one sees which of them it wrote.
fn say_day<R: Print + Eprint>(rt: &R, s: &[u8]) {
    let given = test_input::number(s, 0);
    let mut answers = [99u8; 9];
    let Some(answers) = answers.get_mut(..given.value) else {
        return say_unknown(rt);
    };
    let _ = match check_characters::check_numbers(&s[given.next..], answers) {
        Ok(passed) => write!(Sayer(rt), " passed {passed}"),
        Err(refusal) => write!(Sayer(rt), "{}", NoBehind(refusal)),
    };
    for answer in answers.iter() {
        streams::say(rt, b" ");
        streams::say_decimal(rt, u64::from(*answer));
    }
    streams::say(rt, b"\n");
}
