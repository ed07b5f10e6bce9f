// A wait that keeps its grant through a pause (`wait_with` and `Across::Keep` of the Rust): one turn on eight numbers, a run of turns, a drop.
#![tactic(auto)]

mod calls;
mod manner;
mod moves;

pub use calls::{drop_wait, run, turn};
pub use manner::Keep;
