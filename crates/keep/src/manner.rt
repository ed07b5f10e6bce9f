// The manner of waiting that keeps its grant through a pause.
ghost use Rattle.keep.specs.Keep.{keep};

use crate::moves::{check, grant, is_holding};
use wait::{Ending, GRANTED, HOLDING, LOOKING, Manner, Move, NEVER, RETRY, Tested, Wait, retry};

// `Across::Keep` of the Rust.
pub struct Keep;

// Ruled out: a wait that looks taken to have ended, or to hold a grant; a reply of kind 4 known.
impl Manner for Keep {
    ghost manner = { keep };

    fn ended(wait: Wait) -> bool {
        !matches!(wait.phase, LOOKING | HOLDING)
    }

    fn holds(wait: Wait) -> bool {
        is_holding(wait)
    }

    fn knows(kind: u64) -> bool {
        matches!(kind, GRANTED | RETRY | NEVER)
    }

    #[tactic(auto, unfolding(crate::specs::Keep::moves))]
    fn moves(tested: Tested) -> Move {
        let Tested { wait, turn } = tested;
        if is_holding(wait) {
            return check(tested);
        }
        match turn.kind {
            GRANTED => grant(tested),
            RETRY => retry(wait, turn),
            _ => Move::Ends(Ending::Never),
        }
    }
}
