// A call of handle from a record in a place of its own: it lends the place to the call, and hands back by value what the place then holds.
// Reset alone is made so: thin's theorem on such functions is of this one (docs/DECISIONS.md).
use breaker::{Answered, Breaker};
use error::Refusal;

pub(crate) fn reset(mut breaker: Breaker, list: &mut [u64]) -> Answered<Result<(), Refusal>> {
    let answer = handle::reset(&mut breaker, list);
    Answered { answer, breaker }
}
