// What a move leaves of a wait, and a turn's numbers.
ghost use Rattle.std.specs.Prelude.{◌≡◌};
ghost use Rattle.wait.specs.Manner.{leaves};
ghost use Rattle.wait.specs.Run.{turn_of};
ghost use Rattle.wait.specs.Turns.{ended_wait};

use crate::{AndWait, Move, Observed, TURN_WIDTH, Turned, Wait};
use std::ops::ControlFlow;

// A wait that has ended.
// Ruled out: one that looks; one that keeps its deadline.
pub fn ended_wait() -> Wait
    ensures { result ≡ ended_wait }
{
    Wait::default()
}

// The turn of eight numbers.
// Ruled out: one that exchanges the epochs; one that reads from the next number on.
impl From<[u64; TURN_WIDTH]> for Observed {
    ghost from_gives = { λ xs turn. turn ≡ turn_of xs };

    fn from(read: [u64; TURN_WIDTH]) -> Observed {
        let [
            clock,
            before,
            after,
            kind,
            duration,
            pause,
            postponed_before,
            postponed_after,
        ] = read;
        Observed {
            clock,
            epoch_before: before,
            epoch_after: after,
            kind,
            duration,
            pause,
            postponed_before,
            postponed_after,
        }
    }
}

// What a move leaves: a wait that ends keeps nothing.
// Ruled out: every end left as done; an end that leaves a wait that looks.
impl From<Move> for AndWait<Turned> {
    ghost from_gives = { λ step turning. turning ≡ leaves step };

    fn from(step: Move) -> AndWait<Turned> {
        match step {
            Move::Goes(act, wait) => AndWait {
                answer: ControlFlow::Continue(act),
                wait,
            },
            Move::Ends(ending) => AndWait {
                answer: ControlFlow::Break(ending),
                wait: ended_wait(),
            },
        }
    }
}
