// One call of the journal, made on the breaker.
ghost use Rattle.std.specs.Prelude.{◌≡◌, true, List, ℕ};
ghost use Rattle.breaker.specs.Record.{sound};
ghost use Rattle.breaker.specs.Calls.{by_value, done_by_value, on_sound};
ghost use Rattle.journal.specs.Replay.{called};
ghost use Rattle.journal.specs.Steps.{step_told, StepsTo};

use breaker::{Answered, Breaker, NotAdmitted, Ticket};
use error::Refusal;
use lines::{Call, Order};
use outcomes::{close, settle_locked};
use steps::{abort_locked, admit_as_locked};

// What a call that finishes comes to: the record after it, and no ticket.
fn finished(call: Result<Breaker, Refusal>) -> Result<Answered<Option<Ticket>>, NotAdmitted>
    ensures { (b : Breaker) (s : List ℕ) → by_value step_told result b s ≡ done_by_value call b s }
{
    Ok(Answered {
        answer: None,
        breaker: call?,
    })
}

// Makes the call, by its step: a breaker that is sound need not be tested. An abort is the plain one.
fn made(
    breaker: Breaker,
    list: &mut [u64],
    call: Call,
) -> Result<Answered<Option<Ticket>>, NotAdmitted>
    requires { sound breaker list.old ≡ true }
    ensures { by_value step_told result breaker list.new ≡ on_sound (called call) breaker list.old }
{
    let reading = call.reading;
    match call.order {
        Order::Admit => {
            let entered = admit_as_locked(breaker, reading, false)?;
            Ok(Answered {
                answer: Some(entered.answer),
                breaker: entered.breaker,
            })
        }
        Order::Success(ticket) => finished(settle_locked(breaker, list, reading, ticket, true)),
        Order::Failure(ticket) => finished(settle_locked(breaker, list, reading, ticket, false)),
        Order::Abort(ticket) => finished(Ok(abort_locked(breaker, ticket, false))),
        Order::Reset => finished(Ok(close(breaker, list))),
    }
}

// A call's answer and the record after it: where nothing was made, the record as it was.
pub(crate) fn step(
    breaker: Breaker,
    list: &mut [u64],
    call: Call,
) -> Answered<Result<Option<Ticket>, NotAdmitted>>
    requires { sound breaker list.old ≡ true }
    ensures { StepsTo call breaker list.old result list.new }
{
    match made(breaker, list, call) {
        Ok(done) => Answered {
            answer: Ok(done.answer),
            breaker: done.breaker,
        },
        Err(why) => Answered {
            answer: Err(why),
            breaker,
        },
    }
}
