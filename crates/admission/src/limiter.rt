// The trait side (`impl Limiter for CircuitBreaker` in circuit.rs of the Rust): the inner limiter's replies are handed in.
ghost use Rattle.std.specs.Prelude.{◌≡◌, true, if◌then◌else◌};
ghost use Rattle.breaker.specs.Answers.{notice_told, decided_told, reserved_told, counted_told};
ghost use Rattle.breaker.specs.Rules.{aborted};
ghost use Rattle.breaker.specs.Calls as Calls;
ghost use Rattle.breaker.specs.Calls.{by_value, on_sound, asked};
ghost use Rattle.steps.specs.Steps.{Applies};

use breaker::{Answered, Breaker, Decision, Delay, Ticket, test};
use error::Refusal;
use steps::{abort_locked, admit_as_locked, admit_locked, release_locked};

// A shed as a retry with its delay, else the inner limiter's peek; no transition is made.
// Ruled out: an Open breaker past its cooldown that still refuses; the inner limiter's answer forgotten.
#[tactic(auto, unfolding(breaker::specs::Calls::asked))]
pub fn peek(
    breaker: Breaker,
    list: &[u64],
    now_ms: u64,
    inner: Decision,
) -> Result<Decision, Refusal>
    ensures { decided_told result ≡ asked (Calls.peek inner now_ms) breaker list.now }
{
    test(breaker, list)?;
    match admit_locked(breaker, now_ms) {
        Ok(_) => Ok(inner),
        Err(delay) => Ok(Decision::Retry(delay)),
    }
}

// The record after an admission through the trait side: where the inner limiter did not acquire, the admission is given back.
fn handed_on(admitted: Answered<Ticket>, acquired: bool) -> Breaker
    ensures { Applies (λ c st. if acquired then st else aborted admitted.answer true st) admitted.breaker result }
{
    if acquired {
        return admitted.breaker;
    }
    abort_locked(admitted.breaker, admitted.answer, true)
}

// Admits through the trait side, with the inner limiter's reply.
// Ruled out: a shed told as number 6; a trait probe kept after an inner retry.
#[tactic(auto, unfolding(breaker::specs::Calls::on_sound))]
pub fn acquire_cost(
    breaker: Breaker,
    list: &[u64],
    now_ms: u64,
    inner: Decision,
) -> Result<Answered<Decision>, Refusal>
    ensures { by_value decided_told result breaker list.now ≡ on_sound (Calls.acquire_cost inner now_ms) breaker list.now }
{
    test(breaker, list)?;
    match admit_as_locked(breaker, now_ms, true) {
        Err(delay) => Ok(Answered {
            answer: Decision::Retry(delay),
            breaker,
        }),
        Ok(admitted) => Ok(Answered {
            answer: inner,
            breaker: handed_on(admitted, inner.is_acquired()),
        }),
    }
}

// Reserves through the trait side, with the inner limiter's reply.
// Ruled out: a shed that hands on the inner wait; a probe kept without a reservation.
#[tactic(auto, unfolding(breaker::specs::Calls::on_sound))]
pub fn reserve(
    breaker: Breaker,
    list: &[u64],
    now_ms: u64,
    inner: Option<Delay>,
) -> Result<Answered<Option<Delay>>, Refusal>
    ensures { by_value reserved_told result breaker list.now ≡ on_sound (Calls.reserve inner now_ms) breaker list.now }
{
    test(breaker, list)?;
    match admit_as_locked(breaker, now_ms, true) {
        Err(_) => Ok(Answered {
            answer: None,
            breaker,
        }),
        Ok(admitted) => Ok(Answered {
            answer: inner,
            breaker: handed_on(admitted, inner.is_some()),
        }),
    }
}

// The inner limiter's count, if its peek of 0 was acquired and the breaker would admit.
// Ruled out: a count while the breaker sheds; the count of a refused inner peek.
#[tactic(auto, unfolding(breaker::specs::Calls::asked))]
pub fn available(
    breaker: Breaker,
    list: &[u64],
    now_ms: u64,
    inner: Decision,
    count: u32,
) -> Result<u64, Refusal>
    ensures { counted_told result ≡ asked (Calls.available inner count now_ms) breaker list.now }
{
    let peeked = peek(breaker, list, now_ms, inner)?;
    Ok(if peeked.is_acquired() {
        u64::from(count)
    } else {
        0
    })
}

// Charging is the inner limiter's business: its answer is handed on.
// Ruled out: an answer of 0; one less.
pub fn charge(inner: u32) -> u32
    ensures { result ≡ inner }
{
    inner
}

// Frees a trait trial, with a notice to refund the cost to the inner limiter.
// Ruled out: no notice in Closed; a refund of 1 whatever the cost.
#[tactic(auto, unfolding(breaker::specs::Calls::on_sound))]
pub fn refund(breaker: Breaker, list: &[u64], cost: u32) -> Result<Answered<u32>, Refusal>
    ensures { by_value notice_told result breaker list.now ≡ on_sound (Calls.refund cost) breaker list.now }
{
    test(breaker, list)?;
    Ok(Answered {
        answer: cost,
        breaker: release_locked(breaker),
    })
}
