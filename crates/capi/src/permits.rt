// A permit's calls for C.
ghost use Rattle.std.specs.Prelude.{◌≡◌, true, false};
ghost use Rattle.breaker.specs.Calls as Calls;
ghost use Rattle.breaker.specs.Calls.{on_sound};
ghost use Rattle.crossing.specs.Crossing.{crossing, crossed, ticket_by};

use breaker::Breaker;
use crossing::{PlainTicket, Told};

// Settles a permit as a success.
// Ruled out: a success counted as a failure; one that needs a probe.
#[unsafe(no_mangle)]
pub extern "C" fn pudvirez_permit_success(
    breaker: &mut Breaker,
    list: &mut [u64],
    now_ms: u64,
    ticket: PlainTicket,
) -> Told
    ensures { crossing result breaker.new list.new
        ≡ crossed (on_sound (Calls.settle now_ms (ticket_by ticket) true) breaker.old list.old) }
{
    let s = plain::permit_success(*breaker, list, now_ms, ticket);
    *breaker = s.breaker;
    s.answer
}

// Settles a permit as a failure.
// Ruled out: a failure counted as a success; one that ignores the reading.
#[unsafe(no_mangle)]
pub extern "C" fn pudvirez_permit_failure(
    breaker: &mut Breaker,
    list: &mut [u64],
    now_ms: u64,
    ticket: PlainTicket,
) -> Told
    ensures { crossing result breaker.new list.new
        ≡ crossed (on_sound (Calls.settle now_ms (ticket_by ticket) false) breaker.old list.old) }
{
    let s = plain::permit_failure(*breaker, list, now_ms, ticket);
    *breaker = s.breaker;
    s.answer
}

// Finishes a permit that was dropped unsettled: a failure.
// Ruled out: a drop that records nothing; one that aborts.
#[unsafe(no_mangle)]
pub extern "C" fn pudvirez_permit_dropped(
    breaker: &mut Breaker,
    list: &mut [u64],
    now_ms: u64,
    ticket: PlainTicket,
) -> Told
    ensures { crossing result breaker.new list.new
        ≡ crossed (on_sound (Calls.settle now_ms (ticket_by ticket) false) breaker.old list.old) }
{
    let s = plain::permit_dropped(*breaker, list, now_ms, ticket);
    *breaker = s.breaker;
    s.answer
}

// Gives the admission back: 0 with 1 to refund to the inner limiter.
// Ruled out: no notice for a stale ticket; an outcome recorded.
#[unsafe(no_mangle)]
pub extern "C" fn pudvirez_permit_cancel(
    breaker: &mut Breaker,
    list: &mut [u64],
    ticket: PlainTicket,
) -> Told
    ensures { crossing result breaker.new list.new
        ≡ crossed (on_sound (Calls.cancel (ticket_by ticket)) breaker.old list.old) }
{
    let s = plain::permit_cancel(*breaker, list, ticket);
    *breaker = s.breaker;
    s.answer
}
