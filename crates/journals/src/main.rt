// Replays journals that stand on standard input with the outputs expected of them, and counts those that differ.
// A journal stands as `J name n m`, a line feed, n bytes of journal and m bytes of expected output. The file stdin was written by the
// oracle (`journal cases` of oracle/: the unchanged Rust for every state change); stdout has their number, and 0 that differ.
#![tactic(auto)]

ghost use Rattle.std.specs.Prelude.{◌<◌, ◌≤◌, length};

use history::PLACES;
use journal::ROOM;

// Room for the container. One that does not fit is cut, and its last journal differs.
fn input_buffer() -> [u8; 2_700_000] {
    [0; 2_700_000]
}

// (A function of its own: where a slice is cut, a proof with so many zeros written out runs out of stack.)
fn output_buffer() -> [u8; ROOM] {
    [0; ROOM]
}

// A journal, and the output expected of it.
#[derive(Clone, Copy)]
struct Case<'a> {
    journal: &'a [u8],
    expected: &'a [u8],
}

// What stands behind the next byte `stop`, if there is one.
fn behind(s: &[u8], stop: u8) -> &[u8]
    ensures no_longer { length result.now ≤ length s.now }
    ensures shorter { 0 < length s.now → length result.now < length s.now }
{
    match s.iter().position(|b| *b == stop) {
        Some(at) => &s[at + 1..],
        None => &[],
    }
}

// The decimal at the front, as far as it stays below 10,000,000.
fn number(s: &[u8]) -> usize
    ensures { result < 10000000 }
{
    let mut n: usize = 0;
    for b in s {
        match *b {
            b @ b'0'..=b'9' if n < 1_000_000 => n = n * 10 + usize::from(b - b'0'),
            _ => break,
        }
    }
    n
}

// So many bytes, or as many as there are, and what is left.
fn split(s: &[u8], n: usize) -> (&[u8], &[u8])
    ensures { length result.1.now ≤ length s.now }
{
    s.split_at(n.min(s.len()))
}

// The journal whose line stands at the front, and what is left. What is cut or no such line is a journal that differs.
fn split_case(s: &[u8]) -> (Case<'_>, &[u8])
    ensures { 0 < length s.now → length result.1.now < length s.now }
{
    let first = behind(behind(s, b' '), b' ');
    let second = behind(first, b' ');
    let (journal, rest) = split(behind(second, b'\n'), number(first));
    let (expected, rest) = split(rest, number(second));
    (Case { journal, expected }, rest)
}

// Whether the journal's answer is the expected one.
fn agrees(case: Case, list: &mut [u64], out: &mut [u8]) -> bool {
    match journal::replay(case.journal, list, out) {
        Ok(n) => &out[..n] == case.expected,
        Err(_) => false,
    }
}

// Replays all of a container. (What can't be printed is not told of.)
fn replay_all(rt: &impl Print, s: &[u8], list: &mut [u64], out: &mut [u8]) {
    let mut rest = s;
    let mut journals: u64 = 0;
    let mut differ: u64 = 0;
    while !rest.is_empty() {
        let (case, after) = split_case(rest);
        journals += 1;
        if !agrees(case, list, out) {
            differ += 1;
            let _ = println!(rt; "difference in journal {journals}");
        }
        rest = after;
    }
    let _ = println!(rt; "journals {journals}");
    let _ = println!(rt; "differ {differ}");
}

fn run(rt: &impl Print, s: &[u8]) {
    let mut list = [0; PLACES];
    let mut out = output_buffer();
    replay_all(rt, s, &mut list, &mut out);
}

fn main(rt: HostRuntime) {
    let mut input = input_buffer();
    let n = input::read_full(&mut rt.stdin(), &mut input);
    run(&rt, &input[..n]);
}
