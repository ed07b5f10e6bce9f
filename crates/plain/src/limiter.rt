// The trait side: the inner limiter's replies come in as a kind and milliseconds.
ghost use Rattle.std.specs.Prelude.{◌≡◌};
ghost use Rattle.breaker.specs.Calls as Calls;
ghost use Rattle.breaker.specs.Calls.{on_sound};
ghost use Rattle.crossing.specs.Crossing.{packed, crossing, crossed, is_reply, decision_by, reservable, reservation_by, on_reply, asked_reply};

use crate::pack::{told, told_unknown};
use breaker::{Answered, Breaker};
use crossing::{Tell, Told, known_decision, known_reservation, tell_unknown};

// Admits through the trait side, with the inner limiter's reply. An unknown reply is told 11, after 3 and 4.
// Ruled out: kind and delay swapped; a shed told 6.
#[tactic(auto, unfolding(crossing::specs::Crossing::on_reply))]
pub fn acquire_cost(
    breaker: Breaker,
    list: &mut [u64],
    now_ms: u64,
    inner_kind: u8,
    inner_ms: u64,
) -> Answered<Told>
    ensures { crossing result.answer result.breaker list.new
        ≡ crossed (on_reply (is_reply inner_kind) (Calls.acquire_cost (decision_by inner_kind inner_ms) now_ms) breaker list.old) }
{
    let Some(inner) = known_decision(inner_kind, inner_ms) else {
        return told_unknown(breaker, list);
    };
    told(
        admission::acquire_cost(breaker, list, now_ms, inner),
        breaker,
    )
}

// Reserves through the trait side, with the inner limiter's reply. An unknown reply is told 11, after 3 and 4.
// Ruled out: a reply of kind 2 taken for none; a wait told without its milliseconds.
#[tactic(auto, unfolding(crossing::specs::Crossing::on_reply))]
pub fn reserve(
    breaker: Breaker,
    list: &mut [u64],
    now_ms: u64,
    inner_kind: u8,
    inner_ms: u64,
) -> Answered<Told>
    ensures { crossing result.answer result.breaker list.new
        ≡ crossed (on_reply (reservable inner_kind) (Calls.reserve (reservation_by inner_kind inner_ms) now_ms) breaker list.old) }
{
    let Some(inner) = known_reservation(inner_kind, inner_ms) else {
        return told_unknown(breaker, list);
    };
    told(admission::reserve(breaker, list, now_ms, inner), breaker)
}

// Frees a trait trial, with a notice to refund the cost to the inner limiter.
// Ruled out: every cost told as 1; one that frees no trial.
pub fn refund(breaker: Breaker, list: &mut [u64], cost: u32) -> Answered<Told>
    ensures { crossing result.answer result.breaker list.new ≡ crossed (on_sound (Calls.refund cost) breaker list.old) }
{
    told(admission::refund(breaker, list, cost), breaker)
}

// The verdict without a transition, else the inner limiter's peek. An unknown reply is told 11, after 3 and 4.
// Ruled out: an unknown kind told 0; a retry told without its delay.
#[tactic(auto, unfolding(crossing::specs::Crossing::asked_reply))]
pub fn peek(breaker: Breaker, list: &[u64], now_ms: u64, inner_kind: u8, inner_ms: u64) -> Told
    ensures { result ≡ packed (asked_reply (is_reply inner_kind) (Calls.peek (decision_by inner_kind inner_ms) now_ms) breaker list.now) }
{
    let Some(inner) = known_decision(inner_kind, inner_ms) else {
        return tell_unknown(breaker, list);
    };
    admission::peek(breaker, list, now_ms, inner).tell()
}

// The inner limiter's count, if its peek of 0 was acquired and the breaker would admit. An unknown reply is told 11, after 3 and 4.
// Ruled out: a count where the inner peek was refused; an unknown kind told a count of 0.
#[tactic(auto, unfolding(crossing::specs::Crossing::asked_reply))]
pub fn available(
    breaker: Breaker,
    list: &[u64],
    now_ms: u64,
    inner_kind: u8,
    inner_ms: u64,
    count: u32,
) -> Told
    ensures { result
        ≡ packed (asked_reply (is_reply inner_kind) (Calls.available (decision_by inner_kind inner_ms) count now_ms) breaker list.now) }
{
    let Some(inner) = known_decision(inner_kind, inner_ms) else {
        return tell_unknown(breaker, list);
    };
    admission::available(breaker, list, now_ms, inner, count).tell()
}
