// The breaker, and a wait before it, for C: exported functions over records and storage that the caller lends, each thin over plain's call
// of its name by value, `pudvirez_is_sound` over breaker's. They are alike, and C wants a name for each. Only numbers cross. A flag that
// comes in is a byte: 0 is false, any other number true. `include/pudvirez.h` declares what stands here.
#![tactic(auto)]

mod calls;
mod limiter;
mod permits;
mod previews;
mod saving;
mod waits;

pub use calls::{
    pudvirez_abort_as, pudvirez_admit_as, pudvirez_board, pudvirez_build, pudvirez_finish_all,
    pudvirez_is_sound, pudvirez_reconfigure, pudvirez_record_manual, pudvirez_release_trait_probe,
    pudvirez_reset, pudvirez_settle, pudvirez_still_admits, pudvirez_try_admit,
};
pub use limiter::{
    pudvirez_acquire_cost, pudvirez_available, pudvirez_peek, pudvirez_refund, pudvirez_reserve,
};
pub use permits::{
    pudvirez_permit_cancel, pudvirez_permit_dropped, pudvirez_permit_failure,
    pudvirez_permit_success,
};
pub use previews::{pudvirez_preview_abort, pudvirez_preview_settle};
pub use saving::{pudvirez_check_block, pudvirez_restore, pudvirez_save};
pub use waits::{pudvirez_wait_drop, pudvirez_wait_run, pudvirez_wait_start, pudvirez_wait_turn};
