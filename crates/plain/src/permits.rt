// What becomes of a permit: success, failure, drop, cancel.
ghost use Rattle.std.specs.Prelude.{◌≡◌, true, false};
ghost use Rattle.breaker.specs.Calls as Calls;
ghost use Rattle.breaker.specs.Calls.{on_sound};
ghost use Rattle.crossing.specs.Crossing.{crossing, crossed, ticket_by};

use crate::pack::{told, told_done};
use breaker::{Answered, Breaker};
use crossing::{PlainTicket, Told};

// Settles a permit as a success.
// Ruled out: one that settles a failure; one that cancels.
pub fn permit_success(
    breaker: Breaker,
    list: &mut [u64],
    now_ms: u64,
    ticket: PlainTicket,
) -> Answered<Told>
    ensures { crossing result.answer result.breaker list.new
        ≡ crossed (on_sound (Calls.settle now_ms (ticket_by ticket) true) breaker list.old) }
{
    told_done(
        circuit::permit_success(breaker, list, now_ms, ticket.into()),
        breaker,
    )
}

// Settles a permit as a failure.
// Ruled out: one that settles a success; one that settles at reading 0.
pub fn permit_failure(
    breaker: Breaker,
    list: &mut [u64],
    now_ms: u64,
    ticket: PlainTicket,
) -> Answered<Told>
    ensures { crossing result.answer result.breaker list.new
        ≡ crossed (on_sound (Calls.settle now_ms (ticket_by ticket) false) breaker list.old) }
{
    told_done(
        circuit::permit_failure(breaker, list, now_ms, ticket.into()),
        breaker,
    )
}

// Finishes a permit that was dropped unsettled: a failure, by a call of its own since the drop of a permit is one in the Rust.
// Ruled out: a dropped permit that counts as a success; one that is given back.
pub fn permit_dropped(
    breaker: Breaker,
    list: &mut [u64],
    now_ms: u64,
    ticket: PlainTicket,
) -> Answered<Told>
    ensures { crossing result.answer result.breaker list.new
        ≡ crossed (on_sound (Calls.settle now_ms (ticket_by ticket) false) breaker list.old) }
{
    told_done(
        circuit::permit_dropped(breaker, list, now_ms, ticket.into()),
        breaker,
    )
}

// Gives the admission back, with a notice to refund 1 to the inner limiter.
// Ruled out: a notice of 0; the generation told in its place.
pub fn permit_cancel(breaker: Breaker, list: &mut [u64], ticket: PlainTicket) -> Answered<Told>
    ensures { crossing result.answer result.breaker list.new ≡ crossed (on_sound (Calls.cancel (ticket_by ticket)) breaker list.old) }
{
    told(
        circuit::permit_cancel(breaker, list, ticket.into()),
        breaker,
    )
}
