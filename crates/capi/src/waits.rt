// The calls of a wait before a breaker, for C. One that is refused leaves the breaker as it was.
ghost use Rattle.std.specs.Prelude.{◌≡◌};
ghost use Rattle.error.specs.Choice.{flag_of};
ghost use Rattle.waiting.specs.Calls as Waits;
ghost use Rattle.crossing.specs.Waits.{crossing_wait, pending_by, crossed_start, crossed_turn, crossed_run};

use breaker::Breaker;
use crossing::{PlainPending, Waited};
use wait::Observed;

// Admits a call, and begins its wait for the inner limiter: 0, or 6 with the delay. A time over 2^62 is told 1, before the admission.
// Ruled out: a probe taken and not stored; a shed that changes the pending wait.
#[unsafe(no_mangle)]
pub extern "C" fn pudvirez_wait_start(
    breaker: &mut Breaker,
    list: &mut [u64],
    pending: &mut PlainPending,
    now_ms: u64,
    clock: u64,
    limited: u8,
    timeout: u64,
) -> Waited
    ensures { crossing_wait result breaker.new list.new pending.new
        ≡ crossed_start
        (Waits.start_pending now_ms clock (flag_of limited) timeout breaker.old list.old (pending_by pending.old))
        pending.old }
{
    let s = plain::wait_start(*breaker, list, *pending, now_ms, clock, limited, timeout);
    *breaker = s.breaker;
    *pending = s.pending;
    s.answer
}

// One turn: 0 with what the host is to do, or with the ticket of an admission; 6, 8 or 9 where the wait ends without one.
// Ruled out: a turn told and its wait not stored; a deadline told and its ticket kept.
#[unsafe(no_mangle)]
pub extern "C" fn pudvirez_wait_turn(
    breaker: &mut Breaker,
    list: &mut [u64],
    pending: &mut PlainPending,
    turn: Observed,
    now_ms: u64,
    capacity: u32,
) -> Waited
    ensures { crossing_wait result breaker.new list.new pending.new
        ≡ crossed_turn (Waits.turn_pending turn now_ms capacity breaker.old list.old (pending_by pending.old))
        pending.old }
{
    let s = plain::wait_turn(*breaker, list, *pending, turn, now_ms, capacity);
    *breaker = s.breaker;
    *pending = s.pending;
    s.answer
}

// Takes turns until the wait ends, one is refused, or the limit or the turns are used up, which is told 10; and how many it took.
// Ruled out: a run that takes its first turn only; a count that isn't that of the rules.
#[unsafe(no_mangle)]
pub extern "C" fn pudvirez_wait_run(
    breaker: &mut Breaker,
    list: &mut [u64],
    pending: &mut PlainPending,
    turns: &[u64],
    limit: u64,
    now_ms: u64,
    capacity: u32,
) -> Waited
    ensures { crossing_wait result breaker.new list.new pending.new
        ≡ crossed_run
        (Waits.run_pending turns.now limit now_ms capacity breaker.old list.old (pending_by pending.old))
        pending.old }
{
    let s = plain::wait_run(*breaker, list, *pending, turns, limit, now_ms, capacity);
    *breaker = s.breaker;
    *pending = s.pending;
    s.answer
}

// Ends a wait before its time: the ticket is given back; 0 with 1 to give back to the inner limiter where a grant is held, else with 0.
// Ruled out: a drop whose ticket stays out; a wait that can be dropped twice.
#[unsafe(no_mangle)]
pub extern "C" fn pudvirez_wait_drop(
    breaker: &mut Breaker,
    list: &mut [u64],
    pending: &mut PlainPending,
) -> Waited
    ensures { crossing_wait result breaker.new list.new pending.new
        ≡ crossed_turn (Waits.drop_pending breaker.old list.old (pending_by pending.old)) pending.old }
{
    let s = plain::wait_drop(*breaker, list, *pending);
    *breaker = s.breaker;
    *pending = s.pending;
    s.answer
}
