// Blocks of 512 bytes with a sum, and runs of them that hold a body of any length. They know nothing of what the body is.
#![tactic(auto)]

mod block;
mod passes;
mod runs;

pub use block::{check, checked, judge};
pub use passes::{all_summed, all_versioned};
pub use runs::{count_of, join, run_at, write_run};

// The bytes of a block, and those of them that hold a body.
pub const BLOCK: usize = 512;

pub const BODY: usize = 496;

// Where the body starts, where the bytes that are summed end, and where the sum is.
pub const BODY_AT: usize = 8;

const SUM_OVER: usize = BODY_AT + BODY;

const SUM_AT: usize = BLOCK - 4;

// The version of a save's blocks.
pub const VERSION: u16 = 1;

// The bytes of the largest buffer, the blocks of the longest run, which fill it, and its body.
pub const LARGEST: usize = 65536;

pub const MOST_BLOCKS: u16 = (LARGEST / BLOCK) as u16;

const LONGEST_BODY: usize = MOST_BLOCKS as usize * BODY;

// A run that stands at the front of bytes: its version, and the length of its body.
#[derive(Clone, Copy)]
pub struct Run {
    pub version: u16,
    pub size: usize,
}
