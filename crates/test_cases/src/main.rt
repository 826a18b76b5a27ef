// Judges stored files: its arguments are threes of a number of words, a list of countries (`-` is the empty one) and a file's name.
// Each gives a line: the name, the words and the countries lent, the answer, and the sum of the list's words, which were all
// 4,294,967,295 before.
#![tactic(auto)]

ghost use Rattle.std.specs.Prelude.{◌+◌, ◌^◌, ◌<◌, ◌≤◌, length, IfOk};

use std::env::{Env, FillError};
use std::fmt::Write;
use std::io::{Eprint, Error, ErrorKind, Print};
use std::rt::Files;
use std::{fs, io, str};
use test_input::{NoBehind, Sayer};

fn main(rt: HostRuntime) {
    for case in 0..arg_count(&rt).saturating_sub(1) / 3 {
        one_case(&rt, 3 * case + 1);
    }
}

// How many arguments there are, the program's name among them.
fn arg_count<R: Env>(rt: &R) -> usize {
    let mut nothing = [0u8; 1];
    for i in 0..usize::MAX {
        if let Err(FillError::NotPresent) = rt.arg(i, &mut nothing) {
            return i;
        }
    }
    usize::MAX
}

// An argument at the front of the buffer; nothing where it is missing or longer than the buffer.
fn arg<'a, R: Env>(rt: &R, i: usize, buffer: &'a mut [u8]) -> &'a [u8] {
    match rt.arg(i, buffer) {
        Ok(n) => &buffer[..n],
        Err(_) => &[],
    }
}

// The three arguments from this one on are a number of words, a list of countries and a file's name.
fn one_case<R: Env + Files + Print + Eprint>(rt: &R, at: usize)
    requires { at + 2 < 2 ^ 64 }
{
    let mut digits = [0u8; 8];
    let words = number(arg(rt, at, &mut digits));
    let mut countries = [0u8; 4096];
    let countries = arg(rt, at + 1, &mut countries);
    let mut name = [0u8; 4096];
    let Ok(name) = str::from_utf8(arg(rt, at + 2, &mut name)) else {
        return streams::fail(rt, "a file's name", Error::from(ErrorKind::InvalidInput));
    };
    let mut buffer = [0u8; 65536];
    match read_file(rt, name, &mut buffer) {
        Ok(n) => judge(rt, name, &buffer[..n], countries, words),
        Err(error) => streams::fail(rt, name, error),
    }
}

// Reads a file into the buffer; answers how many bytes of the buffer it is.
fn read_file<R: Files>(rt: &R, name: &str, buffer: &mut [u8]) -> io::Result<usize>
    ensures { IfOk result (λ n. n ≤ length buffer.new) }
{
    streams::read_input(&mut fs::open(rt, name)?, buffer)
}

fn judge<R: Print + Eprint>(rt: &R, name: &str, file: &[u8], countries: &[u8], words: usize)
    requires { words ≤ 4096 }
{
    let mut list = [u32::MAX; 4096];
    let list = &mut list[..words];
    let _ = write!(Sayer(rt), "{name} {words} ");
    streams::say(rt, countries);
    let _ = match file::judge(file, lent(countries), list) {
        Ok(totals) => write!(
            Sayer(rt),
            " ok {} {} {}",
            totals.lines,
            totals.parcels,
            totals.cents
        ),
        Err(refusal) => write!(Sayer(rt), "{}", NoBehind(refusal)),
    };
    let _ = writeln!(Sayer(rt), " list {}", sum(list));
}

// The list of countries that an argument stands for.
fn lent(countries: &[u8]) -> &[u8] {
    if countries == b"-".as_slice() {
        &[]
    } else {
        countries
    }
}

// The sum of words, modulo 1,000,000,000,000.
fn sum(list: &[u32]) -> u64
    requires { length list.now ≤ 4096 }
{
    list.iter().map(|&word| u64::from(word)).sum::<u64>() % 1000000000000
}

// The number that digits write, at most 4,096.
fn number(s: &[u8]) -> usize
    ensures { result ≤ 4096 }
{
    let mut n: usize = 0;
    for b in s {
        n = (10 * n + usize::from(*b % 48)) % 4097;
    }
    n
}
