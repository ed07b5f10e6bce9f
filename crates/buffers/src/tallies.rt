// What the program counts, and how it shows it.
ghost use Rattle.std.specs.Prelude.{◌≤◌};

use crate::columns as at;
use crate::world::{COUNTS, TOLD, World};

// From COUNTS on 16 counts for each call, by the number that it was told. Then all calls, those that differ, the line of the first of them,
// and the lines read.
const CALLS: usize = COUNTS + 64;

const DIFFER: usize = CALLS + 1;

const FIRST: usize = CALLS + 2;

pub(crate) const LINES: usize = CALLS + 3;

pub(crate) fn tally(w: &mut World, at: usize) {
    if let Some(count) = w.get_mut(at) {
        *count = count.wrapping_add(1);
    }
}

// Where the counts of a call begin.
fn row(kind: u64) -> usize
    ensures { result ≤ 8296 }
{
    COUNTS + (kind % 4 * 16) as usize
}

// Counts a call and the number that it was told, which is below 16.
pub(crate) fn tally_told(w: &mut World, kind: u64) {
    let number = (w[TOLD] % 16) as usize;
    tally(w, row(kind) + number);
    tally(w, CALLS);
}

// Counts a call that differs.
pub(crate) fn tally_difference(w: &mut World) {
    if w[DIFFER] == 0 {
        w[FIRST] = w[LINES];
    }
    tally(w, DIFFER);
}

// A name and counts. (What can't be printed is not told of.)
fn show(rt: &impl Print, name: &str, counts: &[u64]) {
    let _ = print!(rt; "{name}");
    for count in counts {
        let _ = print!(rt; " {count}");
    }
    let _ = println!(rt; "");
}

pub(crate) fn show_tallies(rt: &impl Print, w: &World) {
    let _ = println!(rt; "told 0 1 2 3 4 5 6 7 8 9 10 11 12 13 14 15");
    for (name, kind) in [
        ("save", at::SAVE),
        ("restore", at::RESTORE),
        ("reconfigure", at::RECONFIGURE),
        ("check_block", at::CHECK),
    ] {
        let first = row(kind);
        show(rt, name, &w[first..first + 16]);
    }
    show(rt, "calls", &w[CALLS..DIFFER]);
    show(rt, "differ", &w[DIFFER..FIRST]);
    show(rt, "first at line", &w[FIRST..LINES]);
}
