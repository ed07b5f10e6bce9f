// A wait before a breaker (`admit_waiting` and `SlotGuard` of circuit.rs): admission, turns, completion, drop.
#![tactic(auto)]

mod calls;
mod ends;

use breaker::{Breaker, Delay, Ticket};
pub use calls::{drop_pending, run, start, turn};
use std::ops::ControlFlow;
use wait::{Act, Wait};

// A wait and the ticket that was admitted for it.
#[repr(C)]
#[derive(Clone, Copy, Debug, PartialEq, Eq)]
pub struct Pending {
    pub wait: Wait,
    pub ticket: Ticket,
}

// How a wait ends. Shed: the breaker no longer admits; the delay, and how much to refund. Impossible: cost and capacity. Deadline: how
// much to give back, an amount of the limiter's units, told as a number.
#[derive(Clone, Copy)]
pub enum Completed {
    Admitted(Ticket),
    Shed(Delay, u64),
    Impossible(u64, u64),
    Deadline(u64),
}

// What a turn comes to: something to do before the next, or the end.
pub type Awaited = ControlFlow<Completed, Act>;

// The answer of a call, and the record and the wait after it; the wait in C's form where it crosses.
#[derive(Clone, Copy)]
pub struct WithWait<A, P = Pending> {
    pub answer: A,
    pub breaker: Breaker,
    pub pending: P,
}
