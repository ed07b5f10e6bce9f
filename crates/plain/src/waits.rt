// The calls of a wait before a breaker. One that is refused leaves the breaker as it was.
ghost use Rattle.std.specs.Prelude.{◌≡◌, ℕ, List};
ghost use Rattle.error.specs.Told.{told_by};
ghost use Rattle.error.specs.Choice.{flag_of};
ghost use Rattle.waiting.specs.Calls.{with_wait, start_pending, turn_pending, run_pending, drop_pending};
ghost use Rattle.crossing.specs.Waits.{crossing_wait, crossed_start, crossed_turn, crossed_run, pending_by};

use breaker::Breaker;
use crossing::{PlainPending, Tell, Waited, after_turn, tell_wait};
use error::Refusal;
use wait::Observed;
use waiting::{Pending, WithWait};

// A turn or a drop: its answer, the record after it, and the wait that the rule leaves with the ticket as it was handed in.
#[tactic(auto, unfolding(crossing::specs::Waits::crossed_turn))]
fn told_wait<A: Tell>(
    called: Result<WithWait<A>, Refusal>,
    breaker: Breaker,
    pending: PlainPending,
) -> WithWait<Waited, PlainPending>
    ensures { (places : List ℕ) → crossing_wait result.answer result.breaker places result.pending
        ≡ crossed_turn (with_wait (told_by A.told) called breaker places (pending_by pending)) pending }
{
    match called {
        Ok(next) => WithWait {
            answer: tell_wait(next.answer, 0),
            breaker: next.breaker,
            pending: after_turn(next.pending, pending),
        },
        Err(refusal) => WithWait {
            answer: tell_wait(refusal, 0),
            breaker,
            pending,
        },
    }
}

// Admits a call, and begins its wait for the inner limiter. Told 0, the pending wait is the new one; else it is as it was handed in.
// Ruled out: a shed that writes a ticket; a wait begun and the record before the admission returned.
#[tactic(auto, unfolding(crossing::specs::Waits::crossed_start))]
pub fn wait_start(
    breaker: Breaker,
    list: &mut [u64],
    pending: PlainPending,
    now_ms: u64,
    clock: u64,
    limited: u8,
    timeout: u64,
) -> WithWait<Waited, PlainPending>
    ensures { crossing_wait result.answer result.breaker list.new result.pending
        ≡ crossed_start (start_pending now_ms clock (flag_of limited) timeout breaker list.old (pending_by pending)) pending }
{
    match waiting::start(breaker, list, now_ms, clock, limited != 0, timeout) {
        Ok(begun) => WithWait {
            answer: tell_wait((), 0),
            breaker: begun.breaker,
            pending: begun.pending.into(),
        },
        Err(instead) => WithWait {
            answer: tell_wait(instead, 0),
            breaker,
            pending,
        },
    }
}

// One turn. The ticket is left as it was handed in.
// Ruled out: an epoch told as the time to sleep; a probe byte of 2 made 1.
pub fn wait_turn(
    breaker: Breaker,
    list: &mut [u64],
    pending: PlainPending,
    turn: Observed,
    now_ms: u64,
    capacity: u32,
) -> WithWait<Waited, PlainPending>
    ensures { crossing_wait result.answer result.breaker list.new result.pending
        ≡ crossed_turn (turn_pending turn now_ms capacity breaker list.old (pending_by pending)) pending }
{
    let handed = Pending::from(pending);
    told_wait(
        waiting::turn(breaker, list, handed, turn, now_ms, capacity),
        breaker,
        pending,
    )
}

// Takes turns until the wait ends, one is refused, or the limit or the turns are used up; and how many it took.
// Ruled out: turns used up told as a deadline; a refused run told to have taken none.
#[tactic(auto, unfolding(crossing::specs::Waits::crossed_run))]
pub fn wait_run(
    breaker: Breaker,
    list: &mut [u64],
    pending: PlainPending,
    turns: &[u64],
    limit: u64,
    now_ms: u64,
    capacity: u32,
) -> WithWait<Waited, PlainPending>
    ensures { crossing_wait result.answer result.breaker list.new result.pending
        ≡ crossed_run (run_pending turns.now limit now_ms capacity breaker list.old (pending_by pending)) pending }
{
    let handed = Pending::from(pending);
    let ran = waiting::run(breaker, list, handed, turns, limit, now_ms, capacity);
    WithWait {
        answer: tell_wait(ran.answer.course, ran.answer.taken),
        breaker: ran.breaker,
        pending: after_turn(ran.pending, pending),
    }
}

// Ends a wait before its time: the ticket is given back.
// Ruled out: a held grant told as nothing to give back; the wait before the drop returned.
pub fn wait_drop(
    breaker: Breaker,
    list: &mut [u64],
    pending: PlainPending,
) -> WithWait<Waited, PlainPending>
    ensures { crossing_wait result.answer result.breaker list.new result.pending
        ≡ crossed_turn (drop_pending breaker list.old (pending_by pending)) pending }
{
    let handed = Pending::from(pending);
    told_wait(
        waiting::drop_pending(breaker, list, handed),
        breaker,
        pending,
    )
}
