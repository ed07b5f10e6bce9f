// What the Rust's Permit does with its ticket: success, failure, drop, cancel.
ghost use Rattle.std.specs.Prelude.{◌≡◌, true, false};
ghost use Rattle.breaker.specs.Answers.{notice_told};
ghost use Rattle.breaker.specs.Calls as Calls;
ghost use Rattle.breaker.specs.Calls.{by_value, done_by_value, on_sound};

use crate::settle;
use breaker::{Answered, Breaker, Ticket, test};
use error::Refusal;
use steps::abort_locked;

// Ruled out: a success counted as a failure; one that needs a probe.
pub fn permit_success(
    breaker: Breaker,
    list: &mut [u64],
    now_ms: u64,
    ticket: Ticket,
) -> Result<Breaker, Refusal>
    ensures { done_by_value result breaker list.new ≡ on_sound (Calls.settle now_ms ticket true) breaker list.old }
{
    settle(breaker, list, now_ms, ticket, true)
}

// Ruled out: a failure counted as a success; one that ignores the reading.
pub fn permit_failure(
    breaker: Breaker,
    list: &mut [u64],
    now_ms: u64,
    ticket: Ticket,
) -> Result<Breaker, Refusal>
    ensures { done_by_value result breaker list.new ≡ on_sound (Calls.settle now_ms ticket false) breaker list.old }
{
    settle(breaker, list, now_ms, ticket, false)
}

// A permit that was dropped unsettled: a failure.
// Ruled out: a drop counted as good; one that aborts.
pub fn permit_dropped(
    breaker: Breaker,
    list: &mut [u64],
    now_ms: u64,
    ticket: Ticket,
) -> Result<Breaker, Refusal>
    ensures { done_by_value result breaker list.new ≡ on_sound (Calls.settle now_ms ticket false) breaker list.old }
{
    settle(breaker, list, now_ms, ticket, false)
}

// Gives the admission back, with a notice to refund 1 to the inner limiter.
// Ruled out: a notice to refund 0; an outcome recorded.
#[tactic(auto, unfolding(breaker::specs::Calls::on_sound))]
pub fn permit_cancel(
    breaker: Breaker,
    list: &[u64],
    ticket: Ticket,
) -> Result<Answered<u32>, Refusal>
    ensures { by_value notice_told result breaker list.now ≡ on_sound (Calls.cancel ticket) breaker list.now }
{
    test(breaker, list)?;
    Ok(Answered {
        answer: 1,
        breaker: abort_locked(breaker, ticket, false),
    })
}
