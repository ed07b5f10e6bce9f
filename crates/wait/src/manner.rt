// A manner of waiting.
ghost use Rattle.std.specs.Prelude.{◌≡◌, true};
ghost use Rattle.wait.specs.Manner.{Manner as Rules};
ghost use Rattle.wait.specs.Turns.{turn_in_bounds, wait_in_bounds};

use crate::{Move, Observed, Wait};

// A wait and a turn of it, within their bounds.
#[derive(Clone, Copy)]
pub struct Tested {
    pub wait: Wait,
    pub turn: Observed,
    ghost wait_within: { wait_in_bounds wait ≡ true },
    ghost turn_within: { turn_in_bounds turn ≡ true },
}

// What sets a manner apart: the waits that have ended, those that hold a unit, the reply kinds that it knows, and what a tested turn does.
// Ruled out: a kind known that the rules don't know; a wait that by the rules holds a unit, said to hold none.
pub trait Manner {
    ghost manner: { Rules };

    fn ended(wait: Wait) -> bool
        ensures { result ≡ manner.ended wait };

    fn holds(wait: Wait) -> bool
        ensures { result ≡ manner.holds wait };

    fn knows(kind: u64) -> bool
        ensures { result ≡ manner.knows kind };

    fn moves(tested: Tested) -> Move
        ensures { result ≡ manner.moves tested.wait tested.turn };
}
