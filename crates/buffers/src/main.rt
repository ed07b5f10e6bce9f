// Replays a sample of buffers of saves with calls, written by a second program from the documents (oracle/saves, seed 1), and counts the calls
// that differ: in a number told, or after the call in the record, a place or a byte of the buffer.
// (Each line is taken as numbers, what is wrong among them too: so the numbers stand in fixed arrays, and no line is refused.)
#![tactic(auto)]

mod calls;
mod columns;
mod lines;
mod record;
mod replay;
mod tallies;
mod world;

use world::{Bytes, World};

// Room for the sample. What does not fit is cut, and the counts differ.
fn input_buffer() -> [u8; 1_000_000] {
    [0; 1_000_000]
}

fn replay_all(s: &[u8], w: &mut World, b: &mut Bytes) {
    let mut n = lines::blank();
    for line in s.split_inclusive(|byte| *byte == b'\n') {
        lines::read(line, &mut n);
        replay::replay(w, b, &n);
    }
}

fn main(rt: HostRuntime) {
    let mut input = input_buffer();
    let n = input::read_full(&mut rt.stdin(), &mut input);
    let mut w = world::world();
    let mut b = world::bytes();
    replay_all(&input[..n], &mut w, &mut b);
    tallies::show_tallies(&rt, &w);
}
