// What the end of a wait does to its breaker, for every state that the record stores.
ghost use Rattle.std.specs.Prelude.{◌≡◌};
ghost use Rattle.history.specs.Items.{padded};
ghost use Rattle.breaker.specs.Calls.{after, kept};
ghost use Rattle.steps.specs.Steps.{OnStored};
ghost use Rattle.waiting.specs.Answers.{completed_told};
ghost use Rattle.waiting.specs.Rules.{after_abort, completes};

use crate::Completed;
use breaker::{Answered, Breaker, Ticket};
use steps::{abort_locked, still_admits_locked};
use wait::Ending;

// The ticket is aborted.
fn given_up(answer: Completed, breaker: Breaker, ticket: Ticket) -> Answered<Completed>
    ensures { OnStored breaker (λ c st. after (completed_told result.answer) result.breaker (padded st.list)
        ≡ kept c (after_abort (completed_told answer) ticket st)) }
{
    Answered {
        answer,
        breaker: abort_locked(breaker, ticket, false),
    }
}

// Admitted, if the breaker still admits the ticket at this reading; else, and at any other end, the ticket is aborted.
pub(crate) fn complete(
    breaker: Breaker,
    ticket: Ticket,
    ending: Ending,
    now_ms: u64,
    capacity: u32,
) -> Answered<Completed>
    ensures { OnStored breaker (λ c st. after (completed_told result.answer) result.breaker (padded st.list)
        ≡ kept c (completes ending now_ms capacity ticket st)) }
{
    match ending {
        Ending::Deadline(back) => given_up(Completed::Deadline(back), breaker, ticket),
        Ending::Never => given_up(
            Completed::Impossible(1, u64::from(capacity)),
            breaker,
            ticket,
        ),
        Ending::Done => match still_admits_locked(breaker, now_ms, ticket) {
            Ok(()) => Answered {
                answer: Completed::Admitted(ticket),
                breaker,
            },
            Err(delay) => given_up(Completed::Shed(delay, 1), breaker, ticket),
        },
    }
}
