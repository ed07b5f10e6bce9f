// A look before a permit of a lent record is finished. Record and list are only read.
ghost use Rattle.std.specs.Prelude.{◌≡◌};
ghost use Rattle.breaker.specs.Calls as Calls;
ghost use Rattle.breaker.specs.Calls.{on_sound};
ghost use Rattle.preview.specs.Preview.{previewed, preview_of};

use breaker::{Breaker, Ticket};
use error::Refusal;

// What `settle` would do.
// Ruled out: a failure with no room that is told as done; a length that leaves out the eviction.
pub fn preview_settle(
    breaker: &Breaker,
    list: &[u64],
    now_ms: u64,
    ticket: Ticket,
    success: bool,
) -> Result<Breaker, Refusal>
    ensures { previewed result breaker.now
        ≡ preview_of (on_sound (Calls.settle now_ms ticket success) breaker.now list.now) }
{
    preview::preview_settle(*breaker, list, now_ms, ticket, success)
}

// What `abort_as` would do.
// Ruled out: a trait abort that leaves the trait probes; an abort of a stale probe.
pub fn preview_abort(
    breaker: &Breaker,
    list: &[u64],
    ticket: Ticket,
    via_trait: bool,
) -> Result<Breaker, Refusal>
    ensures { previewed result breaker.now
        ≡ preview_of (on_sound (Calls.abort_as ticket via_trait) breaker.now list.now) }
{
    preview::preview_abort(*breaker, list, ticket, via_trait)
}
