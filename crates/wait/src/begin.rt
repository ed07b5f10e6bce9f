// A wait's start, which every manner of waiting shares.
ghost use Rattle.std.specs.Prelude.{◌≡◌};
ghost use Rattle.wait.specs.Turns as Turns;
ghost use Rattle.wait.specs.Turns.{started};

use crate::bounds::time_in_bounds;
use crate::{LOOKING, Wait};
use error::Refusal;

// A wait that looks, and has seen nothing.
fn looking(limited: u64, deadline: u64) -> Wait
    ensures { result ≡ Turns.looking limited deadline }
{
    Wait {
        phase: LOOKING,
        limited,
        deadline,
        ..Wait::default()
    }
}

// A wait from this clock on, with a timeout or without. The timeout is held to its bound even where it doesn't limit, so no Option could carry it.
// Ruled out: a deadline that wraps; one that leaves a time over its bound to the first turn.
#[tactic(auto, unfolding(crate::specs::Turns::started))]
pub fn start(clock: u64, limited: bool, timeout: u64) -> Result<Wait, Refusal>
    ensures { result ≡ started clock limited timeout }
{
    if !(time_in_bounds(clock) && time_in_bounds(timeout)) {
        return Err(Refusal::Time);
    }
    if limited {
        Ok(looking(1, clock + timeout))
    } else {
        Ok(looking(0, 0))
    }
}
