// Admission, its own and through the trait side, by value over lent storage (circuit.rs of the Rust). Each call tests the breaker first, and
// a refused one leaves all as it was.
#![tactic(auto)]

mod calls;
mod limiter;

pub use calls::{admit_as, still_admits, try_admit};
pub use limiter::{acquire_cost, available, charge, peek, refund, reserve};
