// What came of an admission: outcomes, aborts and resets, and the board figure. Each call tests the breaker first, and a refused one leaves all
// as it was. Reading, ticket and outcome stay apart, as the Rust and C hand them.
#![tactic(auto, unfolding(breaker::specs::Calls::on_sound, breaker::specs::Calls::asked, breaker::specs::Calls::reconfigured))]

ghost use Rattle.std.specs.Prelude.{◌≡◌};
ghost use Rattle.breaker.specs.Answers.{counted_told};
ghost use Rattle.breaker.specs.Calls as Calls;
ghost use Rattle.breaker.specs.Calls.{done_by_value, on_sound, asked};
ghost use Rattle.breaker.specs.Rules as Rules;

use breaker::{Breaker, Ticket, build, items_of, test};
use error::Refusal;
use history::Items;
use outcomes::{close, manual_locked, settle_locked};
use steps::{abort_locked, release_locked, renewed};
use trip::CircuitBreakerBuilder;

// Reports the outcome of a call with its ticket.
// Ruled out: one that ignores its ticket; a success that keeps the run when it closes.
pub fn settle(
    breaker: Breaker,
    list: &mut [u64],
    now_ms: u64,
    ticket: Ticket,
    success: bool,
) -> Result<Breaker, Refusal>
    ensures { done_by_value result breaker list.new ≡ on_sound (Calls.settle now_ms ticket success) breaker list.old }
{
    test(breaker, list)?;
    settle_locked(breaker, list, now_ms, ticket, success)
}

// Gives an admission back without an outcome, through the trait side or not.
// Ruled out: a trait abort that leaves the trait probes; an abort of a stale probe.
pub fn abort_as(
    breaker: Breaker,
    list: &[u64],
    ticket: Ticket,
    via_trait: bool,
) -> Result<Breaker, Refusal>
    ensures { done_by_value result breaker list.now ≡ on_sound (Calls.abort_as ticket via_trait) breaker list.now }
{
    test(breaker, list)?;
    Ok(abort_locked(breaker, ticket, via_trait))
}

// Frees one trial that was taken through the trait side.
// Ruled out: a refusal told as done; one that frees a plain probe.
pub fn release_trait_probe(breaker: Breaker, list: &[u64]) -> Result<Breaker, Refusal>
    ensures { done_by_value result breaker list.now ≡ on_sound (λ s st. Rules.done (Rules.released st)) breaker list.now }
{
    test(breaker, list)?;
    Ok(release_locked(breaker))
}

// Reports an outcome without a ticket.
// Ruled out: every outcome taken for good; one that uses up two trait probes.
pub fn record_manual(
    breaker: Breaker,
    list: &mut [u64],
    now_ms: u64,
    success: bool,
) -> Result<Breaker, Refusal>
    ensures { done_by_value result breaker list.new ≡ on_sound (λ s st. Rules.manual s now_ms success st) breaker list.old }
{
    test(breaker, list)?;
    manual_locked(breaker, list, now_ms, success)
}

// Forces the breaker Closed and empties its history.
// Ruled out: a refusal told as done; a generation kept from Closed.
pub fn reset(breaker: Breaker, list: &mut [u64]) -> Result<Breaker, Refusal>
    ensures { done_by_value result breaker list.new ≡ on_sound (λ s st. Rules.reset st) breaker list.old }
{
    test(breaker, list)?;
    Ok(close(breaker, list))
}

// Puts new settings in force: a fresh record of the next generation.
// Ruled out: a generation that starts again at 0; a list kept from the old settings.
pub fn reconfigure(
    breaker: Breaker,
    list: &mut [u64],
    builder: CircuitBreakerBuilder,
) -> Result<Breaker, Refusal>
    ensures { done_by_value result breaker list.new ≡ Calls.reconfigured builder breaker list.old }
{
    test(breaker, list)?;
    let fresh = build(list, builder)?;
    Ok(renewed(fresh, breaker.shared.generation))
}

// The board figure: failures in a thousand calls of the Ratio list.
// Ruled out: a figure for a Windowed list; one that counts the good calls.
pub fn board(breaker: Breaker, list: &[u64]) -> Result<u64, Refusal>
    ensures { counted_told result ≡ asked (Calls.board) breaker list.now }
{
    test(breaker, list)?;
    let len = breaker.shared.len;
    let items = items_of(breaker.config);
    match items {
        Items::Outcomes(_) => {
            let failed = history::count_failures(list, 0, len) as u32;
            Ok(trip::board_figure(failed, len))
        }
        Items::Nothing | Items::Times => Ok(0),
    }
}
