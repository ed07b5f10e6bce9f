// What crosses to C: the structs of plain numbers, what those that come in mean, and each answer as such numbers.
#![tactic(auto)]

mod codes;
mod reply;
mod settings;
mod tell;
mod ticket;
mod waits;

use breaker::Breaker;
pub use codes::TOLD_UNFINISHED;
pub use reply::{
    decision_by, is_reply, is_reservable, known_decision, known_reservation, reservation_by,
    tell_unknown,
};
pub use settings::{builder_by, is_policy, known_builder, tell_unknown_policy};
pub use tell::{Tell, tell_judged, tell_wait};
pub use ticket::after_turn;
use wait::Wait;

// What a caller is told: the number of the table, 0 where the call was not refused,
// and the values of breaker's specs/Answers in their order, 0 where there is none. A probe flag is a value of 0 or 1.
#[repr(C)]
#[derive(Clone, Copy, Debug, Default, PartialEq, Eq)]
pub struct Told {
    pub number: u32,
    pub v1: u64,
    pub v2: u64,
    pub v3: u64,
}

// What a caller of a wait is told: as above, with the values of wait's and waiting's specs/Answers, and the turns that a run took.
#[repr(C)]
#[derive(Clone, Copy, Debug, Default, PartialEq, Eq)]
pub struct Waited {
    pub number: u32,
    pub v1: u64,
    pub v2: u64,
    pub v3: u64,
    pub v4: u64,
    // 0 where the call is no run
    pub taken: u64,
}

// What a call would tell, the record after it, and the length of the list that it would leave.
#[repr(C)]
#[derive(Clone, Copy)]
pub struct PlainPreview {
    pub told: Told,
    pub breaker: Breaker,
    pub len: u32,
}

// A setting. The numbers of another policy than its own are not read.
#[repr(C)]
#[derive(Clone, Copy)]
pub struct Setting {
    // 1 Consecutive, 2 Ratio, 3 Windowed
    pub kind: u8,
    // n, window or failures
    pub limit: u32,
    // any bits, NaN too
    pub ratio: f64,
    pub min_calls: u32,
    pub period_secs: u64,
    pub period_nanos: u32,
    pub cooldown_secs: u64,
    pub cooldown_nanos: u32,
    pub trials: u32,
    pub required: u32,
}

// A ticket: the generation it was made under, and whether it holds a trial.
#[repr(C)]
#[derive(Clone, Copy)]
pub struct PlainTicket {
    pub generation: u64,
    // 0 is false, any other number true
    pub probe: u8,
}

// A wait and the ticket that was admitted for it.
#[repr(C)]
#[derive(Clone, Copy)]
pub struct PlainPending {
    pub wait: Wait,
    pub ticket: PlainTicket,
}
