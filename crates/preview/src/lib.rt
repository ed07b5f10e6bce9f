// A look before a permit is finished: what the call would answer and leave. The list is only read; the length that the call would leave it is
// the record's.
#![tactic(auto)]

ghost use Rattle.std.specs.Prelude.{◌≡◌};
ghost use Rattle.breaker.specs.Calls as Calls;
ghost use Rattle.breaker.specs.Calls.{on_sound};
ghost use Rattle.preview.specs.Preview.{preview_of, previewed};

use breaker::{Breaker, Ticket, test};
use circuit::abort_as;
use error::Refusal;
use outcomes::decide_settle;

// What `settle` would do.
// Ruled out: a failure with no room that is told as done; a length that leaves out the eviction.
#[tactic(auto, unfolding(breaker::specs::Calls::on_sound))]
pub fn preview_settle(
    breaker: Breaker,
    list: &[u64],
    now_ms: u64,
    ticket: Ticket,
    success: bool,
) -> Result<Breaker, Refusal>
    ensures { previewed result breaker ≡ preview_of (on_sound (Calls.settle now_ms ticket success) breaker list.now) }
{
    test(breaker, list)?;
    decide_settle(breaker, list, now_ms, ticket, success)
}

// What `abort_as` would do: it only reads the list, so it is called.
// Ruled out: a trait abort that leaves the trait probes; an abort of a stale probe.
pub fn preview_abort(
    breaker: Breaker,
    list: &[u64],
    ticket: Ticket,
    via_trait: bool,
) -> Result<Breaker, Refusal>
    ensures { previewed result breaker ≡ preview_of (on_sound (Calls.abort_as ticket via_trait) breaker list.now) }
{
    abort_as(breaker, list, ticket, via_trait)
}
