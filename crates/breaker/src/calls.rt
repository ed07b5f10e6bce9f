// Making a breaker, and a delay.
ghost use Rattle.std.specs.Prelude.{◌≡◌};
ghost use Rattle.breaker.specs.declared.Breaker.{Breaker};
ghost use Rattle.breaker.specs.Answers.{delay_of};
ghost use Rattle.breaker.specs.Calls.{built, done_by_value};
ghost use Rattle.breaker.specs.Rules.{no_counts};

use crate::{Breaker, CLOSED, Counts, Delay, Shared};
use error::Refusal;
use trip::CircuitBreakerBuilder;

// Nothing counted.
// Ruled out: a success left over; a trial out.
pub fn no_counts() -> Counts
    ensures { result ≡ no_counts }
{
    Counts::default()
}

// A fresh breaker, whatever record there was, and its list in the storage.
// Ruled out: a storage place left as it was; a generation kept from the old record.
#[tactic(auto, unfolding(crate::specs::Calls::built))]
pub fn build(list: &mut [u64], builder: CircuitBreakerBuilder) -> Result<Breaker, Refusal>
    ensures { (b : Breaker) → done_by_value result b list.new ≡ built builder b list.old }
{
    if list.len() != history::PLACES {
        return Err(Refusal::Storage);
    }
    let config = builder.config()?;
    list.fill(0);
    Ok(Breaker {
        config,
        shared: Shared {
            state: CLOSED,
            ..Shared::default()
        },
    })
}

// Every delay that is told is made here.
// Ruled out: one in seconds; one cut to 32 bits.
pub fn delayed(ms: u64) -> Delay
    ensures { result ≡ delay_of ms }
{
    Delay { ms }
}
