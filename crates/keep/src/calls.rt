// The calls on a wait that keeps its grant: one turn, a run of turns, drop. Each tests what it is handed.
ghost use Rattle.std.specs.Prelude.{◌≡◌};
ghost use Rattle.wait.specs.Manner.{dropped, turned};
ghost use Rattle.wait.specs.Run.{runs};
ghost use Rattle.keep.specs.Keep.{keep};

use crate::Keep;
use error::Refusal;
use wait::{AndWait, Ending, Observed, Progress, Turned, Wait};

// One turn of a wait. A refused one leaves the wait; one that ends it leaves an ended wait.
// Ruled out: a deadline before the first look; a give-back on a plain retry.
pub fn turn(wait: Wait, turn: Observed) -> Result<AndWait<Turned>, Refusal>
    ensures { result ≡ turned keep wait turn }
{
    wait::turn::<Keep>(wait, turn)
}

// Takes turns until the wait ends, one is refused, or the limit or the turns are used up. A turn past the limit is not read.
// Ruled out: a count that isn't that of the rules; a run that reads past the end.
pub fn run(wait: Wait, turns: &[u64], limit: u64) -> AndWait<Progress<Ending>>
    ensures { result ≡ runs keep wait turns.now limit }
{
    wait::run::<Keep>(wait, turns, limit)
}

// Ends a wait before it has ended (`Drop` of the Rust's `Release`): a held grant is to be given back.
// Ruled out: one that keeps a held grant; one that gives back for a wait that holds none.
pub fn drop_wait(wait: Wait) -> Result<AndWait<u64>, Refusal>
    ensures { result ≡ dropped keep wait }
{
    wait::drop_wait::<Keep>(wait)
}
