// The bounds of times, waits and turns: number 1.
ghost use Rattle.std.specs.Prelude.{◌≡◌};
ghost use Rattle.wait.specs.Turns.{time_in_bounds, turn_in_bounds, wait_in_bounds};

use crate::{LATEST, LONGEST, Observed, Wait};

pub(crate) fn time_in_bounds(ns: u64) -> bool
    ensures { result ≡ time_in_bounds ns }
{
    ns <= LONGEST
}

#[tactic(auto, unfolding(crate::specs::Turns::wait_in_bounds))]
pub(crate) fn wait_in_bounds(wait: Wait) -> bool
    ensures { result ≡ wait_in_bounds wait }
{
    wait.deadline <= LATEST && time_in_bounds(wait.seen) && wait.due <= LATEST + wait.seen
}

#[tactic(auto, unfolding(crate::specs::Turns::turn_in_bounds))]
pub(crate) fn turn_in_bounds(turn: Observed) -> bool
    ensures { result ≡ turn_in_bounds turn }
{
    time_in_bounds(turn.clock)
        && time_in_bounds(turn.duration)
        && time_in_bounds(turn.pause)
        && time_in_bounds(turn.postponed_before)
        && time_in_bounds(turn.postponed_after)
}
