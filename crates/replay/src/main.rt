// Replays the journal on standard input to standard output. Where that fails it says so on standard error.
// The file stdin is a good journal, filled to the limit, and a line more; stdout is the Rust's answer (`journal past_the_limit` of oracle/).
#![tactic(auto)]

use history::PLACES;
use journal::{READ, ROOM};
use std::io::Write;

// Answers the journal of which n bytes were read.
fn answer(rt: &HostRuntime, input: &[u8; READ], n: usize) {
    let mut list = [0; PLACES];
    let mut out = [0; ROOM];
    let end = journal::replay_read(input, n, &mut list, &mut out);
    if rt.stdout().write_all(&out[..end]).is_err() {
        let _ = eprintln!(rt; "replay: standard output could not be written");
    }
}

fn main(rt: HostRuntime) {
    let mut buffer = [0; READ];
    match input::read_input(&mut rt.stdin(), &mut buffer) {
        Ok(n) => answer(&rt, &buffer, n),
        Err(_) => {
            let _ = eprintln!(rt; "replay: standard input could not be read");
        }
    }
}
