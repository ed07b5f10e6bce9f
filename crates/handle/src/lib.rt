// The breaker's calls, and those of a wait before it, over records that the caller lends: each is thin over its step by value.
#![tactic(auto)]

mod previews;
mod saving;

ghost use Rattle.std.specs.Prelude.{◌≡◌, true, false};
ghost use Rattle.breaker.specs.Record.{HalfOpen, sound};
ghost use Rattle.breaker.specs.Answers.{admission_told, finished_told, tried_told, standing_told, notice_told, decided_told, reserved_told, counted_told};
ghost use Rattle.breaker.specs.Calls as Calls;
ghost use Rattle.breaker.specs.Calls.{after, on_sound, asked};
ghost use Rattle.breaker.specs.Rules as Rules;
ghost use Rattle.breaker.specs.Orders.{FinishingOrders};
ghost use Rattle.breaker.specs.Batch.{batch, slices, finished_all};
ghost use Rattle.wait.specs.Answers.{dropped_told};
ghost use Rattle.waiting.specs.Answers.{begun_told, awaited_told, course_told};
ghost use Rattle.waiting.specs.Calls as Waits;
ghost use Rattle.waiting.specs.Calls.{pending_after, pending_run};

use breaker::{Breaker, Decision, Delay, NotAdmitted, Ticket, Tried};
use error::Refusal;
pub use previews::{preview_abort, preview_settle};
pub use saving::{restore, save};
use trip::CircuitBreakerBuilder;
use wait::{Observed, Progress};
use waiting::{Awaited, Completed, Pending};

// ---- calls that may change the record; one that is refused leaves all as it was
// Each stores the record and hands on the answer: a function for the two would save one line in six of these calls, and none in the others.

// Puts a fresh breaker into record and storage.
// Ruled out: a record kept from before the build; a refused build that empties the storage.
pub fn build(
    breaker: &mut Breaker,
    list: &mut [u64],
    builder: CircuitBreakerBuilder,
) -> Result<(), Refusal>
    ensures { after (finished_told result) breaker.new list.new ≡ Calls.built builder breaker.old list.old }
{
    *breaker = breaker::build(list, builder)?;
    Ok(())
}

// Admits a call, through the trait side or not, or sheds it with a delay.
// Ruled out: a probe whose record is not stored; one that grants generation 0 to all.
pub fn admit_as(
    breaker: &mut Breaker,
    list: &[u64],
    now_ms: u64,
    via_trait: bool,
) -> Result<Ticket, NotAdmitted>
    ensures { after (admission_told result) breaker.new list.now
        ≡ on_sound (Calls.admission via_trait now_ms) breaker.old list.now }
{
    let admitted = admission::admit_as(*breaker, list, now_ms, via_trait)?;
    *breaker = admitted.breaker;
    Ok(admitted.answer)
}

// Admits a call whose inner limiter gave this reply to a request of 1.
// Ruled out: a transition undone by an inner retry; a shed that changes the record.
pub fn try_admit(
    breaker: &mut Breaker,
    list: &[u64],
    now_ms: u64,
    inner: Decision,
    capacity: u32,
) -> Result<Tried, NotAdmitted>
    ensures { after (tried_told result) breaker.new list.now
        ≡ on_sound (Calls.try_admit inner capacity now_ms) breaker.old list.now }
{
    let tried = admission::try_admit(*breaker, list, now_ms, inner, capacity)?;
    *breaker = tried.breaker;
    Ok(tried.answer)
}

// Reports the outcome of a call with its ticket.
// Ruled out: one that ignores its ticket; an answer of 0 with the old record left.
pub fn settle(
    breaker: &mut Breaker,
    list: &mut [u64],
    now_ms: u64,
    ticket: Ticket,
    success: bool,
) -> Result<(), Refusal>
    ensures { after (finished_told result) breaker.new list.new
        ≡ on_sound (Calls.settle now_ms ticket success) breaker.old list.old }
{
    *breaker = circuit::settle(*breaker, list, now_ms, ticket, success)?;
    Ok(())
}

// Gives an admission back without an outcome, through the trait side or not.
// Ruled out: an abort that is told and not stored; one of a stale probe.
pub fn abort_as(
    breaker: &mut Breaker,
    list: &[u64],
    ticket: Ticket,
    via_trait: bool,
) -> Result<(), Refusal>
    ensures { after (finished_told result) breaker.new list.now
        ≡ on_sound (Calls.abort_as ticket via_trait) breaker.old list.now }
{
    *breaker = circuit::abort_as(*breaker, list, ticket, via_trait)?;
    Ok(())
}

// Frees one trial that was taken through the trait side.
// Ruled out: one that frees a plain probe; one that acts outside HalfOpen.
pub fn release_trait_probe(breaker: &mut Breaker, list: &[u64]) -> Result<(), Refusal>
    ensures { after (finished_told result) breaker.new list.now
        ≡ on_sound (λ s st. Rules.done (Rules.released st)) breaker.old list.now }
{
    *breaker = circuit::release_trait_probe(*breaker, list)?;
    Ok(())
}

// Reports an outcome without a ticket.
// Ruled out: one that frees a probe it did not use up; one that uses up two.
pub fn record_manual(
    breaker: &mut Breaker,
    list: &mut [u64],
    now_ms: u64,
    success: bool,
) -> Result<(), Refusal>
    ensures { after (finished_told result) breaker.new list.new
        ≡ on_sound (λ s st. Rules.manual s now_ms success st) breaker.old list.old }
{
    *breaker = circuit::record_manual(*breaker, list, now_ms, success)?;
    Ok(())
}

// Forces the breaker Closed and empties its history.
// Ruled out: a list emptied and a record kept; open-until set to 0.
pub fn reset(breaker: &mut Breaker, list: &mut [u64]) -> Result<(), Refusal>
    ensures { after (finished_told result) breaker.new list.new
        ≡ on_sound (λ s st. Rules.reset st) breaker.old list.old }
{
    *breaker = circuit::reset(*breaker, list)?;
    Ok(())
}

// Puts new settings in force: a fresh record of the next generation.
// Ruled out: a generation that starts again at 0; a record of the new settings that is told and not stored.
pub fn reconfigure(
    breaker: &mut Breaker,
    list: &mut [u64],
    builder: CircuitBreakerBuilder,
) -> Result<(), Refusal>
    ensures { after (finished_told result) breaker.new list.new
        ≡ Calls.reconfigured builder breaker.old list.old }
{
    *breaker = circuit::reconfigure(*breaker, list, builder)?;
    Ok(())
}

// Settles a permit as a success.
// Ruled out: a success counted as a failure; one that needs a probe.
pub fn permit_success(
    breaker: &mut Breaker,
    list: &mut [u64],
    now_ms: u64,
    ticket: Ticket,
) -> Result<(), Refusal>
    ensures { after (finished_told result) breaker.new list.new
        ≡ on_sound (Calls.settle now_ms ticket true) breaker.old list.old }
{
    *breaker = circuit::permit_success(*breaker, list, now_ms, ticket)?;
    Ok(())
}

// Settles a permit as a failure.
// Ruled out: a failure counted as a success; one that ignores the reading.
pub fn permit_failure(
    breaker: &mut Breaker,
    list: &mut [u64],
    now_ms: u64,
    ticket: Ticket,
) -> Result<(), Refusal>
    ensures { after (finished_told result) breaker.new list.new
        ≡ on_sound (Calls.settle now_ms ticket false) breaker.old list.old }
{
    *breaker = circuit::permit_failure(*breaker, list, now_ms, ticket)?;
    Ok(())
}

// Finishes a permit that was dropped unsettled: a failure.
// Ruled out: a drop that records nothing; one that aborts.
pub fn permit_dropped(
    breaker: &mut Breaker,
    list: &mut [u64],
    now_ms: u64,
    ticket: Ticket,
) -> Result<(), Refusal>
    ensures { after (finished_told result) breaker.new list.new
        ≡ on_sound (Calls.settle now_ms ticket false) breaker.old list.old }
{
    *breaker = circuit::permit_dropped(*breaker, list, now_ms, ticket)?;
    Ok(())
}

// Gives the admission back, with a notice to refund 1 to the inner limiter.
// Ruled out: no notice for a stale ticket; an outcome recorded.
pub fn permit_cancel(breaker: &mut Breaker, list: &[u64], ticket: Ticket) -> Result<u32, Refusal>
    ensures { after (notice_told result) breaker.new list.now
        ≡ on_sound (Calls.cancel ticket) breaker.old list.now }
{
    let cancelled = circuit::permit_cancel(*breaker, list, ticket)?;
    *breaker = cancelled.breaker;
    Ok(cancelled.answer)
}

// Admits through the trait side, with the inner limiter's reply.
// Ruled out: a shed told as number 6; a trait probe kept after an inner retry.
pub fn acquire_cost(
    breaker: &mut Breaker,
    list: &[u64],
    now_ms: u64,
    inner: Decision,
) -> Result<Decision, Refusal>
    ensures { after (decided_told result) breaker.new list.now
        ≡ on_sound (Calls.acquire_cost inner now_ms) breaker.old list.now }
{
    let acquired = admission::acquire_cost(*breaker, list, now_ms, inner)?;
    *breaker = acquired.breaker;
    Ok(acquired.answer)
}

// Reserves through the trait side, with the inner limiter's reply.
// Ruled out: a shed that hands on the inner wait; a probe kept without a reservation.
pub fn reserve(
    breaker: &mut Breaker,
    list: &[u64],
    now_ms: u64,
    inner: Option<Delay>,
) -> Result<Option<Delay>, Refusal>
    ensures { after (reserved_told result) breaker.new list.now
        ≡ on_sound (Calls.reserve inner now_ms) breaker.old list.now }
{
    let reserved = admission::reserve(*breaker, list, now_ms, inner)?;
    *breaker = reserved.breaker;
    Ok(reserved.answer)
}

// Frees a trait trial, with a notice to refund the cost to the inner limiter.
// Ruled out: no notice in Closed; a refund of 1 whatever the cost.
pub fn refund(breaker: &mut Breaker, list: &[u64], cost: u32) -> Result<u32, Refusal>
    ensures { after (notice_told result) breaker.new list.now
        ≡ on_sound (Calls.refund cost) breaker.old list.now }
{
    let refunded = admission::refund(*breaker, list, cost)?;
    *breaker = refunded.breaker;
    Ok(refunded.answer)
}

// Runs a sequence of finishing calls at one reading, given as slices of equal length; each call's number goes to `answers`.
// In `probes`, `settles` and `marks` 0 is false, any other number true.
// The first clause binds this code; the second says of the same rules that demand 3 holds from a sound HalfOpen breaker.
// Ruled out: one that acts on the first call only; a record left as it was before the last.
pub fn finish_all(
    breaker: &mut Breaker,
    list: &mut [u64],
    now_ms: u64,
    generations: &[u64],
    probes: &[u8],
    settles: &[u8],
    marks: &[u8],
    answers: &mut [u64],
) -> Result<(), Refusal>
    ensures answers_after { batch (after (finished_told result) breaker.new list.new) answers.new
        ≡ finished_all now_ms (slices generations.now probes.now settles.now marks.now)
        breaker.old list.old answers.old }
    ensures orders { sound breaker.old list.old ≡ true → breaker.old.shared.state ≡ HalfOpen
        → FinishingOrders now_ms breaker.old list.old }
{
    *breaker = batch::finish_all(
        *breaker,
        list,
        now_ms,
        generations,
        probes,
        settles,
        marks,
        answers,
    )?;
    Ok(())
}

// ---- calls of a wait; one that is refused leaves the breaker as it was
// Each stores two records and hands on the answer, in three lines of its own: a function for the three would, with its contract, be as long
// as all that it saves, two lines in each of four calls.

// Admits a call, and begins its wait for the inner limiter.
// Ruled out: a probe taken and not stored; a shed that ends the wait that was pending.
pub fn wait_start(
    breaker: &mut Breaker,
    list: &[u64],
    pending: &mut Pending,
    now_ms: u64,
    clock: u64,
    limited: bool,
    timeout: u64,
) -> Result<(), NotAdmitted>
    ensures { pending_after (begun_told result) breaker.new list.now pending.new
        ≡ Waits.start_pending now_ms clock limited timeout breaker.old list.now pending.old }
{
    let begun = waiting::start(*breaker, list, now_ms, clock, limited, timeout)?;
    *breaker = begun.breaker;
    *pending = begun.pending;
    Ok(())
}

// One turn: what the host is to do before the next, or how the wait ends.
// Ruled out: a turn told and its wait not stored; a deadline told and its ticket kept.
pub fn wait_turn(
    breaker: &mut Breaker,
    list: &[u64],
    pending: &mut Pending,
    turn: Observed,
    now_ms: u64,
    capacity: u32,
) -> Result<Awaited, Refusal>
    ensures { pending_after (awaited_told result) breaker.new list.now pending.new
        ≡ Waits.turn_pending turn now_ms capacity breaker.old list.now pending.old }
{
    let turned = waiting::turn(*breaker, list, *pending, turn, now_ms, capacity)?;
    *breaker = turned.breaker;
    *pending = turned.pending;
    Ok(turned.answer)
}

// Takes turns until the wait ends, one is refused, or the limit or the turns are used up; says how many it took.
// Ruled out: a run that takes its first turn only; one that leaves the wait as it was before.
pub fn wait_run(
    breaker: &mut Breaker,
    list: &[u64],
    pending: &mut Pending,
    turns: &[u64],
    limit: u64,
    now_ms: u64,
    capacity: u32,
) -> Progress<Completed>
    ensures { pending_run (pending_after (course_told result.course) breaker.new list.now pending.new) result.taken
        ≡ Waits.run_pending turns.now limit now_ms capacity breaker.old list.now pending.old }
{
    let ran = waiting::run(*breaker, list, *pending, turns, limit, now_ms, capacity);
    *breaker = ran.breaker;
    *pending = ran.pending;
    ran.answer
}

// Ends a wait before its time: the ticket is given back, and a held grant is to be.
// Ruled out: a drop whose ticket stays out; a wait that can be dropped twice.
pub fn wait_drop(breaker: &mut Breaker, list: &[u64], pending: &mut Pending) -> Result<u64, Refusal>
    ensures { pending_after (dropped_told result) breaker.new list.now pending.new
        ≡ Waits.drop_pending breaker.old list.now pending.old }
{
    let dropped = waiting::drop_pending(*breaker, list, *pending)?;
    *breaker = dropped.breaker;
    *pending = dropped.pending;
    Ok(dropped.answer)
}

// ---- calls that only read it

// Whether record and storage are sound: what every call tests.
// Ruled out: a test that passes an outcome of 2; one that lets inflight exceed the trials.
pub fn is_sound(breaker: &Breaker, list: &[u64]) -> bool
    ensures { result ≡ sound breaker.now list.now }
{
    breaker::is_sound(*breaker, list)
}

// Whether a waiter with this ticket may still go.
// Ruled out: one that looks at the state before the generation; a delay in HalfOpen.
pub fn still_admits(
    breaker: &Breaker,
    list: &[u64],
    now_ms: u64,
    ticket: Ticket,
) -> Result<(), NotAdmitted>
    ensures { standing_told result ≡ asked (Calls.still_admitted now_ms ticket) breaker.now list.now }
{
    admission::still_admits(*breaker, list, now_ms, ticket)
}

// The board figure: failures in a thousand calls of the Ratio list.
// Ruled out: a figure for a Windowed list; one that counts the good calls.
pub fn board(breaker: &Breaker, list: &[u64]) -> Result<u64, Refusal>
    ensures { counted_told result ≡ asked (Calls.board) breaker.now list.now }
{
    circuit::board(*breaker, list)
}

// The verdict without a transition, else the inner limiter's peek.
// Ruled out: an Open breaker past its cooldown that still refuses; a shed told as number 6.
pub fn peek(
    breaker: &Breaker,
    list: &[u64],
    now_ms: u64,
    inner: Decision,
) -> Result<Decision, Refusal>
    ensures { decided_told result ≡ asked (Calls.peek inner now_ms) breaker.now list.now }
{
    admission::peek(*breaker, list, now_ms, inner)
}

// The inner limiter's count, if its peek of 0 was acquired and the breaker would admit.
// Ruled out: a count while the breaker sheds; the count of a refused inner peek.
pub fn available(
    breaker: &Breaker,
    list: &[u64],
    now_ms: u64,
    inner: Decision,
    count: u32,
) -> Result<u64, Refusal>
    ensures { counted_told result ≡ asked (Calls.available inner count now_ms) breaker.now list.now }
{
    admission::available(*breaker, list, now_ms, inner, count)
}
