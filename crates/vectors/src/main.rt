// Replays the samples of calls and of waits with the answers that the Rust gave (oracle/README.md), and counts the lines that differ.
// A line that is none of the samples' differs too.
#![tactic(auto)]

mod asked;
mod lent;
mod lines;
mod numbers;
mod refusals;
mod replay;
mod tallies;
mod want;

use replay::Replay;

// How many of the lines that differ are named.
const NAMED: u64 = 20;

// Room for the samples. What does not fit is cut, and its counts differ.
fn input_buffer() -> [u8; 2_700_000] {
    [0; 2_700_000]
}

// Replays the lines, and shows which differ. (What can't be printed is not told of.)
fn replay_all(rt: &impl Print, samples: &[u8], replay: &mut Replay) {
    for (number, line) in (1u64..).zip(samples.split_inclusive(|b| *b == b'\n')) {
        if replay.replay(line) {
            continue;
        }
        if replay.tallies.differences < NAMED {
            let _ = println!(rt; "difference at line {number}");
        }
        tallies::count(&mut replay.tallies.differences);
    }
}

fn main(rt: HostRuntime) {
    let mut input = input_buffer();
    let n = input::read_full(&mut rt.stdin(), &mut input);
    let mut replay = Replay::new();
    replay_all(&rt, &input[..n], &mut replay);
    let _ = print!(rt; "{}", replay.tallies);
}
