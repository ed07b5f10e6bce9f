// The steps that calls are made of: the kinds of change to a record, admission, abort and release. They test nothing: each promises what its
// rule makes of the state that the record stores.
// A name ends in `_locked`, as `admit_locked` of the Rust does, which runs under its lock: here the caller has tested the breaker.
#![tactic(auto)]

mod admit;
mod back;
mod update;

pub use admit::{admit_as_locked, admit_locked, still_admits_locked};
pub use back::{abort_locked, release_locked};
pub use update::{closed, opened, renewed, returned, transition, with_counts, with_history};
