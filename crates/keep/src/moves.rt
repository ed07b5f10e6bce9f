// A grant and a held check of a wait that keeps its grant, once the turn has passed its tests.
ghost use Rattle.std.specs.Prelude.{◌≡◌};
ghost use Rattle.keep.specs.Keep as Keep;
ghost use Rattle.keep.specs.Keep.{checks, grants, holds_on};
ghost use Rattle.wait.specs.Turns.{is_holding};

use wait::{Act, Ending, HOLDING, Move, Observed, Tested, Wait, remaining, sleeping};

pub(crate) fn is_holding(wait: Wait) -> bool
    ensures { result ≡ is_holding wait }
{
    wait.phase == HOLDING
}

// Sleeps on, or gives back at the deadline.
fn hold(wait: Wait, turn: Observed) -> Move
    ensures { result ≡ holds_on turn wait }
{
    let nap = if turn.pause == 0 {
        wait.due.saturating_sub(turn.clock)
    } else {
        turn.pause
    };
    if nap > remaining(wait, turn.clock) {
        return Move::Ends(Ending::Deadline(1));
    }
    Move::Goes(sleeping(nap, turn.epoch_after, turn.pause), wait)
}

// The wait with what the schedule was postponed since it last saw.
#[tactic(auto, unfolding(wait::specs::Turns::wait_in_bounds, wait::specs::Turns::turn_in_bounds))]
fn postponed(tested: Tested) -> Wait
    ensures { result ≡ Keep.postponed tested.turn tested.wait }
{
    let Tested { wait, turn } = tested;
    Wait {
        phase: HOLDING,
        seen: wait.seen.max(turn.postponed_after),
        due: wait.due + turn.postponed_after.saturating_sub(wait.seen),
        ..wait
    }
}

// The held check.
#[tactic(auto, unfolding(crate::specs::Keep::checks))]
pub(crate) fn check(tested: Tested) -> Move
    ensures { result ≡ checks tested.wait tested.turn }
{
    let turn = tested.turn;
    let held = postponed(tested);
    if turn.pause == 0 && held.due <= turn.clock {
        return Move::Ends(Ending::Done);
    }
    hold(held, turn)
}

// Granted: it sleeps the reply's duration, or is checked at once where that is 0.
#[tactic(auto, unfolding(crate::specs::Keep::grants, wait::specs::Turns::wait_in_bounds, wait::specs::Turns::turn_in_bounds))]
pub(crate) fn grant(tested: Tested) -> Move
    ensures { result ≡ grants tested.wait tested.turn }
{
    let Tested { wait, turn } = tested;
    let held = Wait {
        phase: HOLDING,
        seen: turn.postponed_before,
        due: turn.clock + turn.duration,
        ..wait
    };
    if turn.duration == 0 {
        return check(Tested { wait: held, turn });
    }
    Move::Goes(Act::Sleep(turn.duration), held)
}
