// Saves of a breaker in a buffer of blocks, to come back to.
#![tactic(auto)]

mod calls;

pub use calls::{restore, save};
use saves::ROOM;

// Room for a body: a function of its own, by whose name the proofs of its two callers speak of the array.
fn room() -> [u8; ROOM] {
    [0; ROOM]
}
