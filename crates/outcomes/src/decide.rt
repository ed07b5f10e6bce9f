// What an outcome would do: the record after it, and what becomes of the list, which is only read.
// Each promises for every sound breaker; on any other it is safe, and promises nothing.
ghost use Rattle.std.specs.Prelude.{◌≡◌, ℕ, ◌+◌, ◌-◌, ◌≤◌, Bool};
ghost use Rattle.std.specs.Float.{binary64};
ghost use Rattle.std.specs.Float.Ieee.{of_bits};
ghost use Rattle.trip.specs.Policy.{Consecutive, Ratio, Windowed, policy_of};
ghost use Rattle.breaker.specs.Record.{settings};
ghost use Rattle.breaker.specs.Rules.{in_half_open, in_closed, settled};
ghost use Rattle.steps.specs.Steps.{OnStored, Applies, OnHeld};
ghost use Rattle.outcomes.specs.Decide.{counted_as, Decides, Makes};

use crate::{Change, Recorded};
use breaker::{Breaker, CLOSED, Counts, HALF_OPEN, Ticket, items_of};
use error::Refusal;
use history::{Items, MOST_ITEMS};
use steps::{closed, opened, with_counts, with_history};

// An outcome in HalfOpen: the record after it.
// Ruled out: a failure counted as a success; a success that frees a trial which its ticket does not hold.
pub fn decide_half_open(b: Breaker, now_ms: u64, t: Ticket, success: bool) -> Breaker
    ensures { Applies (λ c st. in_half_open (settings c) now_ms t success st) b result }
{
    if !success {
        return opened(b, now_ms);
    }
    let counts = b.shared.counts;
    let successes = counts.successes.saturating_add(1);
    if b.config.required <= successes {
        return closed(b);
    }
    let counted = Counts {
        inflight: counts.inflight.saturating_sub(u32::from(t.probe)),
        successes,
        ..counts
    };
    with_counts(b, counted)
}

// A settle outside Closed, where nothing is refused: the record after it.
// Ruled out: one that counts in Open; a stale ticket that counts.
#[tactic(auto, unfolding(breaker::specs::Rules::settled))]
pub fn decide_unclosed(b: Breaker, now_ms: u64, t: Ticket, success: bool) -> Breaker
    ensures { (b.shared.state ≡ 0 → ⊥) → OnStored b (λ c st. Makes c (settled (settings c) now_ms t success st) (Ok result) b) }
{
    if t.generation != b.shared.generation || b.shared.state != HALF_OPEN {
        return b;
    }
    decide_half_open(b, now_ms, t, success)
}

// A failure in Closed that is counted, and trips or not.
fn counted(change: Change, trips: bool) -> Recorded
    ensures { result ≡ counted_as change trips }
{
    if trips {
        Recorded::Tripped(change)
    } else {
        Recorded::Counted(change)
    }
}

// Consecutive: the list stays empty.
fn decide_run(b: Breaker, success: bool) -> Recorded
    ensures { OnStored b (λ c st. (reading : ℕ) → policy_of c ≡ Consecutive c.limit → Decides (settings c) reading success st (Ok result)) }
{
    let len = b.shared.len;
    if success {
        return Recorded::Counted(Change {
            gone: 0,
            run: 0,
            len,
        });
    }
    let run = b.shared.run.saturating_add(1);
    counted(
        Change { gone: 0, run, len },
        trip::run_trips(run, b.config.limit),
    )
}

// Ratio: the outcome goes behind the list, and before a full window the oldest goes.
fn decide_outcome(b: Breaker, list: &[u64], window: u32, success: bool) -> Recorded
    ensures { OnHeld b list.now (λ c st. (reading : ℕ) → policy_of c ≡ Ratio window (of_bits binary64 c.ratio_bits) c.min_calls
        → Decides (settings c) reading success st (Ok result)) }
{
    let c = b.config;
    let h = b.shared;
    let gone = over(h.len, window);
    let len = (h.len - gone).saturating_add(1);
    if success {
        return Recorded::Counted(Change { gone, run: 0, len });
    }
    // of a list that is not sound the sum may be wider
    let failed = u32::try_from(history::count_failures(list, gone, h.len)).unwrap_or(u32::MAX);
    counted(
        Change {
            gone,
            run: h.run.saturating_add(1),
            len,
        },
        trip::ratio_trips(failed.saturating_add(1), len, c.min_calls, c.ratio_bits),
    )
}

// How many of a list's outcomes are over the window with one more: 1 where it is full, else 0.
fn over(len: u32, window: u32) -> u32
    ensures { (result ≤ len) × (1 ≤ window → len ≤ window → result ≡ len + 1 - window) }
{
    u32::from(window <= len && 0 < len)
}

// Windowed: the readings before the cutoff go, and a failure's own is appended.
fn decide_time(b: Breaker, list: &[u64], now_ms: u64, success: bool) -> Result<Recorded, Refusal>
    ensures { OnHeld b list.now (λ c st. policy_of c ≡ Windowed c.limit c.period_ms → Decides (settings c) now_ms success st result) }
{
    let c = b.config;
    let h = b.shared;
    let cutoff = history::cutoff(now_ms, c.period_ms);
    let gone = history::count_expired(list, h.len, cutoff);
    let stay = h.len - gone;
    if success {
        return Ok(Recorded::Counted(Change {
            gone,
            run: 0,
            len: stay,
        }));
    }
    if MOST_ITEMS <= stay {
        return Err(Refusal::Full);
    }
    let recent = history::count_recent(list, gone, h.len, cutoff);
    Ok(counted(
        Change {
            gone,
            run: h.run.saturating_add(1),
            len: stay + 1,
        },
        trip::times_trip(recent.saturating_add(1), c.limit),
    ))
}

// An outcome in Closed, with a ticket that is not stale: a refusal, or what becomes of run and list, and whether it opens.
// Ruled out: a success that trips; a failure that leaves the run.
pub fn decide_closed(
    b: Breaker,
    list: &[u64],
    now_ms: u64,
    success: bool,
) -> Result<Recorded, Refusal>
    ensures { OnHeld b list.now (λ c st. Decides (settings c) now_ms success st result) }
{
    match items_of(b.config) {
        Items::Nothing => Ok(decide_run(b, success)),
        Items::Outcomes(window) => Ok(decide_outcome(b, list, window, success)),
        Items::Times => decide_time(b, list, now_ms, success),
    }
}

// The record that what is decided in Closed comes to.
// Ruled out: a run that stays as it was; a trip that stays Closed.
pub fn concluded(b: Breaker, now_ms: u64, decided: Recorded) -> Breaker
    ensures { OnStored b (λ c st. (good : Bool) → Decides (settings c) now_ms good st (Ok decided)
        → Makes c (in_closed (settings c) now_ms good st) (Ok result) b) }
{
    match decided {
        Recorded::Counted(change) => with_history(b, change.run, change.len),
        Recorded::Tripped(change) => opened(with_history(b, change.run, change.len), now_ms),
    }
}

// A settle in any state, all but the storing: a refusal, or the record after it.
// Ruled out: a stale ticket that counts; one that forgets what leaves the list.
#[tactic(auto, unfolding(breaker::specs::Rules::settled))]
pub fn decide_settle(
    b: Breaker,
    list: &[u64],
    now_ms: u64,
    t: Ticket,
    success: bool,
) -> Result<Breaker, Refusal>
    ensures { OnHeld b list.now (λ c st. Makes c (settled (settings c) now_ms t success st) result b) }
{
    if b.shared.state != CLOSED {
        return Ok(decide_unclosed(b, now_ms, t, success));
    }
    if t.generation != b.shared.generation {
        return Ok(b);
    }
    Ok(concluded(b, now_ms, decide_closed(b, list, now_ms, success)?))
}
