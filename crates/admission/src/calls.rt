// Admission, with or without the inner limiter's reply, and whether a waiter may still go.
ghost use Rattle.std.specs.Prelude.{◌≡◌};
ghost use Rattle.breaker.specs.Answers.{admission_told, tried_told, standing_told};
ghost use Rattle.breaker.specs.Calls as Calls;
ghost use Rattle.breaker.specs.Calls.{by_value, on_sound, asked};

use breaker::{Answered, Breaker, Decision, NotAdmitted, Ticket, Tried, test};
use steps::{abort_locked, admit_as_locked, admit_locked, still_admits_locked};

// Admits a call, through the trait side or not, or sheds it with a delay.
// Ruled out: one that sheds every call; one that grants generation 0 to all.
#[tactic(auto, unfolding(breaker::specs::Calls::on_sound))]
pub fn admit_as(
    breaker: Breaker,
    list: &[u64],
    now_ms: u64,
    via_trait: bool,
) -> Result<Answered<Ticket>, NotAdmitted>
    ensures { by_value admission_told result breaker list.now ≡ on_sound (Calls.admission via_trait now_ms) breaker list.now }
{
    test(breaker, list)?;
    Ok(admit_as_locked(breaker, now_ms, via_trait)?)
}

// Admits a call whose inner limiter gave this reply to a request of 1.
// Ruled out: a probe kept after an inner retry; a transition undone by it.
#[tactic(auto, unfolding(breaker::specs::Calls::on_sound))]
pub fn try_admit(
    breaker: Breaker,
    list: &[u64],
    now_ms: u64,
    inner: Decision,
    capacity: u32,
) -> Result<Answered<Tried>, NotAdmitted>
    ensures { by_value tried_told result breaker list.now ≡ on_sound (Calls.try_admit inner capacity now_ms) breaker list.now }
{
    test(breaker, list)?;
    let admitted = admit_locked(breaker, now_ms)?;
    let ticket = admitted.answer;
    let answer = match inner {
        Decision::Acquired => {
            return Ok(Answered {
                answer: Tried::Granted(ticket),
                breaker: admitted.breaker,
            });
        }
        Decision::Retry(_) => Tried::Retry,
        Decision::Impossible => Tried::Impossible { cost: 1, capacity },
    };
    Ok(Answered {
        answer,
        breaker: abort_locked(admitted.breaker, ticket, false),
    })
}

// Whether a waiter with this ticket may still go.
// Ruled out: a shed of the present generation while Open; a delay above 0 in HalfOpen.
#[tactic(auto, unfolding(breaker::specs::Calls::asked))]
pub fn still_admits(
    breaker: Breaker,
    list: &[u64],
    now_ms: u64,
    ticket: Ticket,
) -> Result<(), NotAdmitted>
    ensures { standing_told result ≡ asked (Calls.still_admitted now_ms ticket) breaker list.now }
{
    test(breaker, list)?;
    Ok(still_admits_locked(breaker, now_ms, ticket)?)
}
