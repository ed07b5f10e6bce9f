// Every call by value over plain numbers: what comes in is read, the call is made, and what it came to is told (crate crossing).
#![tactic(auto)]

mod calls;
mod limiter;
mod pack;
mod permits;
mod previews;
mod saving;
mod waits;

pub use calls::{
    abort_as, admit_as, board, build, finish_all, reconfigure, record_manual, release_trait_probe,
    reset, settle, still_admits, try_admit,
};
pub use limiter::{acquire_cost, available, peek, refund, reserve};
pub use permits::{permit_cancel, permit_dropped, permit_failure, permit_success};
pub use previews::{preview_abort, preview_settle};
pub use saving::{check_block, restore, save};
pub use waits::{wait_drop, wait_run, wait_start, wait_turn};
