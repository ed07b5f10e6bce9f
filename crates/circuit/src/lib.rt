// What came of an admission, by value over lent storage: outcomes with and without a ticket, aborts, resets, permits, and the board figure
// (circuit.rs of the Rust).
#![tactic(auto)]

mod calls;
mod permits;

pub use calls::{abort_as, board, reconfigure, record_manual, release_trait_probe, reset, settle};
pub use permits::{permit_cancel, permit_dropped, permit_failure, permit_success};
