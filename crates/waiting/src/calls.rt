// The calls of a wait before a breaker. Each tests storage and soundness first, then the wait; a refused one leaves the breaker as it was.
// Their parameters are as C hands them, named as in the table.
ghost use Rattle.std.specs.Prelude.{◌≡◌};
ghost use Rattle.waiting.specs.declared.Pending.{Pending};
ghost use Rattle.wait.specs.Answers.{dropped_told};
ghost use Rattle.waiting.specs.Answers.{begun_told, awaited_told, course_told};
ghost use Rattle.waiting.specs.Calls.{pending_after, pending_run, start_pending, turn_pending, run_pending, drop_pending, with_wait};

use crate::ends::complete;
use crate::{Awaited, Completed, Pending, WithWait};
use breaker::{Breaker, NotAdmitted, test};
use error::Refusal;
use std::ops::ControlFlow;
use steps::{abort_locked, admit_as_locked};
use wait::{Observed, Progress, TURN_WIDTH};

// Admits a call, and begins its wait for the inner limiter. The times are tested before the admission.
// The timeout is held to its bound even where it doesn't limit, so no Option could carry it.
// Ruled out: a refused time that leaves a probe behind; a shed that changes the pending wait.
#[tactic(auto, unfolding(crate::specs::Calls::start_pending))]
pub fn start(
    breaker: Breaker,
    list: &[u64],
    now_ms: u64,
    clock: u64,
    limited: bool,
    timeout: u64,
) -> Result<WithWait<()>, NotAdmitted>
    ensures { (p : Pending) → with_wait begun_told result breaker list.now p
        ≡ start_pending now_ms clock limited timeout breaker list.now p }
{
    test(breaker, list)?;
    let wait = wait::start(clock, limited, timeout)?;
    let admitted = admit_as_locked(breaker, now_ms, false)?;
    let ticket = admitted.answer;
    Ok(WithWait {
        answer: (),
        breaker: admitted.breaker,
        pending: Pending { wait, ticket },
    })
}

// One turn. One that ends the wait completes it: admitted, if the breaker still admits the ticket at this reading; else the ticket is aborted.
// Ruled out: a completion that skips the abort; one that admits whatever the breaker has become.
#[tactic(auto, unfolding(crate::specs::Calls::turn_pending))]
pub fn turn(
    breaker: Breaker,
    list: &[u64],
    pending: Pending,
    turn: Observed,
    now_ms: u64,
    capacity: u32,
) -> Result<WithWait<Awaited>, Refusal>
    ensures { with_wait awaited_told result breaker list.now pending
        ≡ turn_pending turn now_ms capacity breaker list.now pending }
{
    test(breaker, list)?;
    let turned = keep::turn(pending.wait, turn)?;
    let next = Pending {
        wait: turned.wait,
        ..pending
    };
    match turned.answer {
        ControlFlow::Continue(act) => Ok(WithWait {
            answer: ControlFlow::Continue(act),
            breaker,
            pending: next,
        }),
        ControlFlow::Break(ending) => {
            let done = complete(breaker, pending.ticket, ending, now_ms, capacity);
            Ok(WithWait {
                answer: ControlFlow::Break(done.answer),
                breaker: done.breaker,
                pending: next,
            })
        }
    }
}

// Takes turns until the wait ends, one is refused, or the limit or the turns are used up; one that ends is completed.
// Ruled out: a count that isn't that of the rules; a refused turn that aborts the ticket.
#[tactic(auto, unfolding(crate::specs::Calls::run_pending))]
pub fn run(
    breaker: Breaker,
    list: &[u64],
    pending: Pending,
    turns: &[u64],
    limit: u64,
    now_ms: u64,
    capacity: u32,
) -> WithWait<Progress<Completed>>
    ensures { pending_run (pending_after (course_told result.answer.course) result.breaker list.now result.pending) result.answer.taken
        ≡ run_pending turns.now limit now_ms capacity breaker list.now pending }
{
    if turns.len() % TURN_WIDTH != 0 {
        return proceeding(Err(Refusal::Storage), 0, breaker, pending);
    }
    if let Err(refusal) = test(breaker, list) {
        return proceeding(Err(refusal), 0, breaker, pending);
    }
    let ran = keep::run(pending.wait, turns, limit);
    let next = Pending {
        wait: ran.wait,
        ..pending
    };
    let Progress { course, taken } = ran.answer;
    match course {
        Err(refusal) => proceeding(Err(refusal), taken, breaker, next),
        Ok(None) => proceeding(Ok(None), taken, breaker, next),
        Ok(Some(ending)) => {
            let done = complete(breaker, pending.ticket, ending, now_ms, capacity);
            proceeding(Ok(Some(done.answer)), taken, done.breaker, next)
        }
    }
}

fn proceeding(
    course: Result<Option<Completed>, Refusal>,
    taken: u64,
    breaker: Breaker,
    pending: Pending,
) -> WithWait<Progress<Completed>>
    ensures { result ≡ record { answer = record { course = course; taken = taken }; breaker = breaker; pending = pending } }
{
    WithWait {
        answer: Progress { course, taken },
        breaker,
        pending,
    }
}

// Ends a wait before it has ended: the ticket is aborted, and a held grant is to be given back. Told is how much, 0 or 1.
// Ruled out: a drop that keeps the probe; one that keeps a held grant.
#[tactic(auto, unfolding(crate::specs::Calls::drop_pending))]
pub fn drop_pending(
    breaker: Breaker,
    list: &[u64],
    pending: Pending,
) -> Result<WithWait<u64>, Refusal>
    ensures { with_wait dropped_told result breaker list.now pending ≡ drop_pending breaker list.now pending }
{
    test(breaker, list)?;
    let dropped = keep::drop_wait(pending.wait)?;
    Ok(WithWait {
        answer: dropped.answer,
        breaker: abort_locked(breaker, pending.ticket, false),
        pending: Pending {
            wait: dropped.wait,
            ..pending
        },
    })
}
