// The inner limiter's replies that come in, a kind and milliseconds, as the enums they stand for.
ghost use Rattle.std.specs.Prelude.{◌≡◌, if◌then◌else◌};
ghost use Rattle.error.specs.Told.{refused};
ghost use Rattle.error.specs.declared.Refusal.TheVariants.{Turn};
ghost use Rattle.breaker.specs.Calls.{guarded};
ghost use Rattle.crossing.specs.Crossing.{packed, is_reply, decision_by, reservable, reservation_by};

use crate::Told;
use crate::codes::{REPLY_ACQUIRED, REPLY_IMPOSSIBLE, REPLY_RETRY, RESERVED_WAIT};
use crate::tell::Tell;
use breaker::{Breaker, Decision, Delay, delayed, test};
use error::Refusal;

// Whether an inner limiter's reply has this kind.
// Ruled out: a kind of 0 taken; a kind of 4 taken.
pub fn is_reply(kind: u8) -> bool
    ensures { result ≡ is_reply kind }
{
    (REPLY_ACQUIRED..=REPLY_IMPOSSIBLE).contains(&kind)
}

// What an inner limiter replied: a kind of 1 to 3, and the milliseconds of a retry.
// Ruled out: a retry without its milliseconds; kinds 2 and 3 swapped.
pub fn decision_by(kind: u8, ms: u64) -> Decision
    ensures { result ≡ decision_by kind ms }
{
    match kind {
        REPLY_ACQUIRED => Decision::Acquired,
        REPLY_RETRY => Decision::Retry(delayed(ms)),
        _ => Decision::Impossible,
    }
}

// The same where the kind is one, else nothing: no TryFrom, since what is told of an unknown kind depends on record and list, not on the kind.
// Ruled out: nothing for an impossible; a kind of 4 taken for one.
pub fn known_decision(kind: u8, ms: u64) -> Option<Decision>
    ensures { result ≡ (if is_reply kind then Some (decision_by kind ms) else None) }
{
    is_reply(kind).then(|| decision_by(kind, ms))
}

// Whether a reservation has this kind.
// Ruled out: a kind of 2 taken; a kind of 0 refused.
pub fn is_reservable(kind: u8) -> bool
    ensures { result ≡ reservable kind }
{
    kind <= RESERVED_WAIT
}

// What an inner limiter replied to a reservation: 1 a wait of so many milliseconds, 0 none.
// Ruled out: a wait without its milliseconds; 0 taken for a wait.
pub fn reservation_by(kind: u8, ms: u64) -> Option<Delay>
    ensures { result ≡ reservation_by kind ms }
{
    (kind == RESERVED_WAIT).then(|| delayed(ms))
}

// The same where the kind is one, else nothing: the inner Option is the limiter's answer, the outer says whether the kind is known.
// Ruled out: nothing for a kind of 0; a kind of 2 taken for none.
pub fn known_reservation(kind: u8, ms: u64) -> Option<Option<Delay>>
    ensures { result ≡ (if reservable kind then Some (reservation_by kind ms) else None) }
{
    is_reservable(kind).then(|| reservation_by(kind, ms))
}

// What a call with an unknown reply is told: 3, 4, then 11.
// Ruled out: 11 told before 3 and 4; 4 told where the breaker is sound.
pub fn tell_unknown(breaker: Breaker, list: &[u64]) -> Told
    ensures { result ≡ packed (guarded refused (refused Turn) breaker list.now) }
{
    match test(breaker, list) {
        Ok(()) => Refusal::Turn.tell(),
        Err(refusal) => refusal.tell(),
    }
}
