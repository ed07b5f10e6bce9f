// What a line asks of a breaker and a wait, and the calls of handle that it makes.
// Matches, no table of functions: each call takes other arguments. The record, its list and the wait are handed on apart, as handle takes them.
use crate::lent;
use breaker::{Breaker, Decision, Delay, Ticket};
use crossing::{Tell, Waited, tell_wait};
use trip::CircuitBreakerBuilder;
use wait::{Observed, TURN_WIDTH};
use waiting::Pending;

// How a permit ends.
#[derive(Clone, Copy)]
pub(crate) enum Outcome {
    Success,
    Failure,
    Dropped,
    Cancelled,
}

// An operation on the breaker, and what it takes beside a reading.
#[derive(Clone, Copy)]
pub(crate) enum Op {
    AdmitAs { via_trait: bool },
    Settle { ticket: Ticket, success: bool },
    AbortAs { ticket: Ticket, via_trait: bool },
    ReleaseTraitProbe,
    RecordManual { success: bool },
    Reset,
    StillAdmits { ticket: Ticket },
    TryAdmit { inner: Decision, capacity: u32 },
    Permit { ticket: Ticket, outcome: Outcome },
    Peek { inner: Decision },
    AcquireCost { inner: Decision },
    Reserve { inner: Option<Delay> },
    Available { inner: Decision, count: u32 },
    Charge { cost: u32 },
    Refund { cost: u32 },
}

#[derive(Clone, Copy)]
pub(crate) struct Call {
    pub(crate) op: Op,
    pub(crate) now_ms: u64,
}

#[derive(Clone, Copy)]
pub(crate) struct Start {
    pub(crate) now_ms: u64,
    pub(crate) clock: u64,
    pub(crate) limited: bool,
    pub(crate) timeout: u64,
}

#[derive(Clone, Copy)]
pub(crate) struct Turn {
    pub(crate) observed: Observed,
    pub(crate) now_ms: u64,
    pub(crate) capacity: u32,
}

// A turn that is made as a run: how many numbers of it and of a second turn are handed in, and how many turns the run may take.
#[derive(Clone, Copy)]
pub(crate) struct Run {
    pub(crate) turn: Turn,
    pub(crate) numbers: usize,
    pub(crate) limit: u64,
}

#[derive(Clone, Copy)]
pub(crate) enum Asked {
    Build(CircuitBreakerBuilder),
    Call(Call),
    Start(Start),
    Turn(Turn),
    Run(Run),
    Drop,
}

// A breaker's record, and the wait under way or one that has ended.
#[derive(Clone, Copy, PartialEq, Eq)]
pub(crate) struct Ours {
    pub(crate) breaker: Breaker,
    pub(crate) pending: Pending,
}

// A call and what is handed in to it: a record and a wait, and how many places.
#[derive(Clone, Copy)]
pub(crate) struct Handed {
    pub(crate) asked: Asked,
    pub(crate) ours: Ours,
    pub(crate) places: usize,
}

// What a call came to: what was told, and the record and the wait after it.
#[derive(Clone, Copy, PartialEq, Eq)]
pub(crate) struct Made {
    pub(crate) told: Waited,
    pub(crate) ours: Ours,
}

// What a call is told that is no run.
fn told<A: Tell>(answer: A) -> Waited {
    tell_wait(answer, 0)
}

impl Call {
    fn make(self, breaker: &mut Breaker, list: &mut [u64]) -> Waited {
        let now_ms = self.now_ms;
        match self.op {
            Op::AdmitAs { via_trait } => told(handle::admit_as(breaker, list, now_ms, via_trait)),
            Op::Settle { ticket, success } => {
                told(handle::settle(breaker, list, now_ms, ticket, success))
            }
            Op::AbortAs { ticket, via_trait } => {
                told(handle::abort_as(breaker, list, ticket, via_trait))
            }
            Op::ReleaseTraitProbe => told(handle::release_trait_probe(breaker, list)),
            Op::RecordManual { success } => {
                told(handle::record_manual(breaker, list, now_ms, success))
            }
            Op::Reset => {
                let after = lent::reset(*breaker, list);
                *breaker = after.breaker;
                told(after.answer)
            }
            Op::StillAdmits { ticket } => told(handle::still_admits(breaker, list, now_ms, ticket)),
            Op::TryAdmit { inner, capacity } => {
                told(handle::try_admit(breaker, list, now_ms, inner, capacity))
            }
            Op::Permit { ticket, outcome } => outcome.finish(breaker, list, now_ms, ticket),
            Op::Peek { inner } => told(handle::peek(breaker, list, now_ms, inner)),
            Op::AcquireCost { inner } => told(handle::acquire_cost(breaker, list, now_ms, inner)),
            Op::Reserve { inner } => told(handle::reserve(breaker, list, now_ms, inner)),
            Op::Available { inner, count } => {
                told(handle::available(breaker, list, now_ms, inner, count))
            }
            Op::Charge { cost } => told(admission::charge(cost)),
            Op::Refund { cost } => told(handle::refund(breaker, list, cost)),
        }
    }
}

impl Outcome {
    fn finish(
        self,
        breaker: &mut Breaker,
        list: &mut [u64],
        now_ms: u64,
        ticket: Ticket,
    ) -> Waited {
        match self {
            Outcome::Success => told(handle::permit_success(breaker, list, now_ms, ticket)),
            Outcome::Failure => told(handle::permit_failure(breaker, list, now_ms, ticket)),
            Outcome::Dropped => told(handle::permit_dropped(breaker, list, now_ms, ticket)),
            Outcome::Cancelled => told(handle::permit_cancel(breaker, list, ticket)),
        }
    }
}

impl Start {
    fn make(self, ours: &mut Ours, list: &[u64]) -> Waited {
        told(handle::wait_start(
            &mut ours.breaker,
            list,
            &mut ours.pending,
            self.now_ms,
            self.clock,
            self.limited,
            self.timeout,
        ))
    }
}

impl Turn {
    fn make(self, ours: &mut Ours, list: &[u64]) -> Waited {
        told(handle::wait_turn(
            &mut ours.breaker,
            list,
            &mut ours.pending,
            self.observed,
            self.now_ms,
            self.capacity,
        ))
    }

    // A run of so many numbers, which may take so many turns.
    pub(crate) fn run(self, numbers: usize, limit: u64) -> Run {
        Run {
            turn: self,
            numbers,
            limit,
        }
    }
}

// A turn's numbers as a run takes them, in the order of Observed's fields.
impl From<Turn> for [u64; TURN_WIDTH] {
    fn from(turn: Turn) -> Self {
        let turn = turn.observed;
        [
            turn.clock,
            turn.epoch_before,
            turn.epoch_after,
            turn.kind,
            turn.duration,
            turn.pause,
            turn.postponed_before,
            turn.postponed_after,
        ]
    }
}

impl Run {
    // The second turn is of zeros, and is refused.
    fn make(self, ours: &mut Ours, list: &[u64]) -> Waited {
        let turns = [self.turn.into(), [0; TURN_WIDTH]];
        let numbers = turns.as_flattened();
        let end = self.numbers.min(numbers.len());
        let progress = handle::wait_run(
            &mut ours.breaker,
            list,
            &mut ours.pending,
            &numbers[..end],
            self.limit,
            self.turn.now_ms,
            self.turn.capacity,
        );
        tell_wait(progress.course, progress.taken)
    }
}

impl Asked {
    // Makes the call on this record and this wait, in as many places as are lent.
    pub(crate) fn make(self, ours: &mut Ours, list: &mut [u64]) -> Waited {
        match self {
            Asked::Build(builder) => told(handle::build(&mut ours.breaker, list, builder)),
            Asked::Call(call) => call.make(&mut ours.breaker, list),
            Asked::Start(start) => start.make(ours, list),
            Asked::Turn(turn) => turn.make(ours, list),
            Asked::Run(run) => run.make(ours, list),
            Asked::Drop => told(handle::wait_drop(&mut ours.breaker, list, &mut ours.pending)),
        }
    }
}
