// What a call by value came to: its answer as plain numbers, and the record after it, or where it was refused or shed the record handed in.
ghost use Rattle.std.specs.Prelude.{◌≡◌, ℕ, List};
ghost use Rattle.error.specs.Told.{told_or, refused};
ghost use Rattle.error.specs.declared.Refusal.TheVariants.{Turn};
ghost use Rattle.breaker.specs.Calls.{after, guarded, by_value, done_by_value};
ghost use Rattle.crossing.specs.Crossing.{crossing, crossed};

use breaker::{Answered, Breaker};
use crossing::{Tell, Told, tell_unknown};
use error::Refusal;

#[tactic(auto, unfolding(crossing::specs::Crossing::crossed))]
pub(crate) fn told<A: Tell, E: Tell>(
    called: Result<Answered<A>, E>,
    handed: Breaker,
) -> Answered<Told>
    ensures { (places : List ℕ) → crossing result.answer result.breaker places ≡ crossed (by_value (told_or A.told E.told) called handed places) }
{
    match called {
        Ok(Answered { answer, breaker }) => Answered {
            answer: answer.tell(),
            breaker,
        },
        Err(instead) => Answered {
            answer: instead.tell(),
            breaker: handed,
        },
    }
}

// Of a call that answers no more than the record after it. Not by `told` and a map, by which the record moves once more: a settle that scans
// nothing took 67 ns for 60.
#[tactic(auto, unfolding(crossing::specs::Crossing::crossed))]
pub(crate) fn told_done(called: Result<Breaker, Refusal>, handed: Breaker) -> Answered<Told>
    ensures { (places : List ℕ) → crossing result.answer result.breaker places ≡ crossed (done_by_value called handed places) }
{
    match called {
        Ok(breaker) => Answered {
            answer: ().tell(),
            breaker,
        },
        Err(refusal) => Answered {
            answer: refusal.tell(),
            breaker: handed,
        },
    }
}

// Of a call by an inner limiter's reply of unknown kind. No function that takes the call as a closure: `acquire_cost` took a tenth longer
// by one, which had as many lines at each call.
#[tactic(auto, unfolding(crossing::specs::Crossing::crossed))]
pub(crate) fn told_unknown(breaker: Breaker, list: &[u64]) -> Answered<Told>
    ensures { crossing result.answer result.breaker list.now
        ≡ crossed (after (guarded refused (refused Turn) breaker list.now) breaker list.now) }
{
    Answered {
        answer: tell_unknown(breaker, list),
        breaker,
    }
}
