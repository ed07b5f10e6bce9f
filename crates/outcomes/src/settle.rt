// What an outcome does: decided first, then stored. Each step promises for every sound breaker; on any other it is safe, and promises nothing.
ghost use Rattle.std.specs.Prelude.{◌≡◌, true, [], length, ◌≤◌};
ghost use Rattle.error.specs.Told.{nothing};
ghost use Rattle.history.specs.Items.{padded};
ghost use Rattle.history.specs.Change.{left, told, held};
ghost use Rattle.trip.specs.Policy.{policy_of};
ghost use Rattle.breaker.specs.Record.{settings, sound};
ghost use Rattle.breaker.specs.Rules.{closing, settled, manual};
ghost use Rattle.breaker.specs.Calls.{after, done_by_value, kept};
ghost use Rattle.steps.specs.Steps.{OnStored, Holds, OnHeld};
ghost use Rattle.outcomes.specs.Decide.{changed, Decides, places_after};

use crate::Recorded;
use crate::decide::{concluded, decide_closed, decide_unclosed};
use breaker::{Breaker, CLOSED, Counts, HALF_OPEN, Ticket, items_of};
use error::Refusal;
use history::Items;
use steps::{closed, with_counts};

// Closes the breaker and empties its list.
// Ruled out: a run of failures that is kept; a place left as it was.
pub fn close(breaker: Breaker, list: &mut [u64]) -> Breaker
    ensures { sound breaker list.old ≡ true → OnStored breaker (λ c st. Holds c (closing st) result list.new) }
{
    emptied(breaker, list);
    closed(breaker)
}

// Empties the list of a sound breaker, where nothing is refused.
fn emptied(b: Breaker, list: &mut [u64])
    ensures { sound b list.old ≡ true → list.new ≡ padded [] }
{
    let _length = history::clear(list, b.shared.len);
}

// Stores the list after an outcome in Closed.
fn store(b: Breaker, list: &mut [u64], now_ms: u64, failed: bool, gone: u32) -> Result<u32, Refusal>
    ensures { OnHeld b list.old (λ c st. length (changed (policy_of c) failed now_ms gone st.list) ≤ 4096
        → left (told result) list.new ≡ held (changed (policy_of c) failed now_ms gone st.list)) }
{
    let len = b.shared.len;
    match items_of(b.config) {
        Items::Nothing => Ok(len),
        Items::Outcomes(_) => history::turn_over(list, len, gone, u64::from(failed)),
        Items::Times => {
            if failed {
                return history::turn_over(list, len, gone, now_ms);
            }
            history::drop_oldest(list, len, gone)
        }
    }
}

// An outcome in Closed, with a ticket that is not stale: decided, and its list stored. The caller makes the record.
// Ruled out: a list stored where there is no room; a list left as it was where the run is counted.
pub fn settle_closed(
    b: Breaker,
    list: &mut [u64],
    now_ms: u64,
    success: bool,
) -> Result<Recorded, Refusal>
    ensures { OnHeld b list.old (λ c st. Decides (settings c) now_ms success st result
        × (list.new ≡ places_after (settings c) now_ms success st result)) }
{
    let decided = decide_closed(b, list, now_ms, success)?;
    // What is decided has room, so this is not refused.
    let _length = store(b, list, now_ms, !success, decided.change().gone);
    Ok(decided)
}

// A settle outside Closed, where nothing is refused: no answer beside the record, so that a loop over it keeps the record in place.
// Ruled out: one that counts in Open; a list left as it was where the breaker closes.
#[tactic(auto, unfolding(breaker::specs::Rules::settled))]
pub fn settle_unclosed(
    b: Breaker,
    list: &mut [u64],
    now_ms: u64,
    t: Ticket,
    success: bool,
) -> Breaker
    ensures { (b.shared.state ≡ 0 → ⊥) → OnHeld b list.old (λ c st. after nothing result list.new ≡ kept c (settled (settings c) now_ms t success st)) }
{
    let next = decide_unclosed(b, now_ms, t, success);
    if next.shared.state == CLOSED {
        emptied(b, list);
    }
    next
}

// A settle in any state. Beside `decide_settle`, with the same tests: that one only reads the list, and the steps here store it.
// Ruled out: a stale ticket that counts; a failure with no room that is told as done.
#[tactic(auto, unfolding(breaker::specs::Rules::settled))]
pub fn settle_locked(
    b: Breaker,
    list: &mut [u64],
    now_ms: u64,
    t: Ticket,
    success: bool,
) -> Result<Breaker, Refusal>
    ensures { OnHeld b list.old (λ c st. done_by_value result b list.new ≡ kept c (settled (settings c) now_ms t success st)) }
{
    if b.shared.state != CLOSED {
        return Ok(settle_unclosed(b, list, now_ms, t, success));
    }
    if t.generation != b.shared.generation {
        return Ok(b);
    }
    Ok(concluded(b, now_ms, settle_closed(b, list, now_ms, success)?))
}

// A manual outcome.
// Ruled out: one that frees a probe it did not use up; one that uses up two.
pub fn manual_locked(
    b: Breaker,
    list: &mut [u64],
    now_ms: u64,
    success: bool,
) -> Result<Breaker, Refusal>
    ensures { OnHeld b list.old (λ c st. done_by_value result b list.new ≡ kept c (manual (settings c) now_ms success st)) }
{
    let generation = b.shared.generation;
    let counts = b.shared.counts;
    if b.shared.state != HALF_OPEN || counts.trait_probes == 0 {
        let ticket = Ticket {
            generation,
            probe: false,
        };
        return settle_locked(b, list, now_ms, ticket, success);
    }
    let used = Counts {
        trait_probes: counts.trait_probes - 1,
        ..counts
    };
    let ticket = Ticket {
        generation,
        probe: true,
    };
    let next = settle_unclosed(with_counts(b, used), list, now_ms, ticket, success);
    Ok(next)
}
