// The trait side for C, with the inner limiter's reply as a kind and milliseconds.
ghost use Rattle.std.specs.Prelude.{◌≡◌};
ghost use Rattle.breaker.specs.Calls as Calls;
ghost use Rattle.breaker.specs.Calls.{on_sound};
ghost use Rattle.crossing.specs.Crossing.{packed, crossing, crossed, is_reply, decision_by, reservable, reservation_by, on_reply, asked_reply};

use breaker::Breaker;
use crossing::Told;

// Admits through the trait side, with the inner limiter's reply. An unknown reply is told 11, after 3 and 4.
// Ruled out: an unknown kind handed on; a trait probe kept after an inner retry.
#[unsafe(no_mangle)]
pub extern "C" fn pudvirez_acquire_cost(
    breaker: &mut Breaker,
    list: &mut [u64],
    now_ms: u64,
    inner_kind: u8,
    inner_ms: u64,
) -> Told
    ensures { crossing result breaker.new list.new
        ≡ crossed
        (on_reply (is_reply inner_kind) (Calls.acquire_cost (decision_by inner_kind inner_ms) now_ms) breaker.old list.old) }
{
    let s = plain::acquire_cost(*breaker, list, now_ms, inner_kind, inner_ms);
    *breaker = s.breaker;
    s.answer
}

// Reserves through the trait side, with the inner limiter's reply. An unknown reply is told 11, after 3 and 4.
// Ruled out: an unknown kind taken for none; a probe kept without a reservation.
#[unsafe(no_mangle)]
pub extern "C" fn pudvirez_reserve(
    breaker: &mut Breaker,
    list: &mut [u64],
    now_ms: u64,
    inner_kind: u8,
    inner_ms: u64,
) -> Told
    ensures { crossing result breaker.new list.new
        ≡ crossed
        (on_reply (reservable inner_kind) (Calls.reserve (reservation_by inner_kind inner_ms) now_ms) breaker.old list.old) }
{
    let s = plain::reserve(*breaker, list, now_ms, inner_kind, inner_ms);
    *breaker = s.breaker;
    s.answer
}

// Frees a trait trial: 0 with the cost to refund to the inner limiter.
// Ruled out: no notice in Closed; a refund of 1 whatever the cost.
#[unsafe(no_mangle)]
pub extern "C" fn pudvirez_refund(breaker: &mut Breaker, list: &mut [u64], cost: u32) -> Told
    ensures { crossing result breaker.new list.new ≡ crossed (on_sound (Calls.refund cost) breaker.old list.old) }
{
    let s = plain::refund(*breaker, list, cost);
    *breaker = s.breaker;
    s.answer
}

// The verdict without a transition, else the inner limiter's peek. An unknown reply is told 11, after 3 and 4.
// Ruled out: an unknown kind handed on; a shed told as number 6.
#[unsafe(no_mangle)]
pub extern "C" fn pudvirez_peek(
    breaker: &Breaker,
    list: &[u64],
    now_ms: u64,
    inner_kind: u8,
    inner_ms: u64,
) -> Told
    ensures { result
        ≡ packed (asked_reply (is_reply inner_kind) (Calls.peek (decision_by inner_kind inner_ms) now_ms) breaker.now list.now) }
{
    plain::peek(*breaker, list, now_ms, inner_kind, inner_ms)
}

// The inner limiter's count, if its peek of 0 was acquired and the breaker would admit. An unknown reply is told 11, after 3 and 4.
// Ruled out: a count while the breaker sheds; the count of a refused inner peek.
#[unsafe(no_mangle)]
pub extern "C" fn pudvirez_available(
    breaker: &Breaker,
    list: &[u64],
    now_ms: u64,
    inner_kind: u8,
    inner_ms: u64,
    count: u32,
) -> Told
    ensures { result
        ≡ packed
        (asked_reply (is_reply inner_kind) (Calls.available (decision_by inner_kind inner_ms) count now_ms) breaker.now list.now) }
{
    plain::available(*breaker, list, now_ms, inner_kind, inner_ms, count)
}
