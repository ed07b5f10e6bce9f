// The calls of every manner of waiting: one turn, a run of turns, drop. Each tests what it is handed.
ghost use Rattle.std.specs.Prelude.{◌≡◌, None, Ok, Err};
ghost use Rattle.wait.specs.Manner.{dropped, in_order, turned};
ghost use Rattle.wait.specs.Run.{ran_as, runs, stops};

use crate::bounds::{turn_in_bounds, wait_in_bounds};
use crate::{
    AndWait, Ending, Manner, Observed, Progress, TURN_WIDTH, Tested, Turned, Wait, ended_wait,
};
use error::Refusal;
use std::ops::ControlFlow;

// The tests in their order: 11, then 1.
fn tested(unknown: bool, beyond: bool) -> Result<(), Refusal>
    ensures { result ≡ in_order unknown beyond Err (Ok tt) }
{
    if unknown {
        return Err(Refusal::Turn);
    }
    if beyond {
        return Err(Refusal::Time);
    }
    Ok(())
}

// One turn of a wait. A refused one leaves the wait; one that ends it leaves an ended wait.
// Ruled out: 1 before 11; a known reply that is refused.
#[tactic(auto, unfolding(crate::specs::Manner::turned))]
pub fn turn<M: Manner>(wait: Wait, turn: Observed) -> Result<AndWait<Turned>, Refusal>
    ensures { result ≡ turned M.manner wait turn }
{
    tested(
        M::ended(wait) || !M::knows(turn.kind),
        !(wait_in_bounds(wait) && turn_in_bounds(turn)),
    )?;
    Ok(M::moves(Tested { wait, turn }).into())
}

fn ran_as(
    course: Result<Option<Ending>, Refusal>,
    taken: u64,
    wait: Wait,
) -> AndWait<Progress<Ending>>
    ensures { result ≡ ran_as course taken wait }
{
    AndWait {
        answer: Progress { course, taken },
        wait,
    }
}

// What a run is told when no turn is left or its limit is reached.
#[tactic(auto, unfolding(crate::specs::Run::stops))]
fn stop<M: Manner>(wait: Wait) -> Result<Option<Ending>, Refusal>
    ensures { result ≡ stops M.manner wait }
{
    tested(M::ended(wait), !wait_in_bounds(wait)).map(|()| None)
}

// Takes turns until the wait ends, one is refused, or the limit or the turns are used up. A turn past the limit is not read.
// Ruled out: a count that isn't that of the rules; a run that reads past the end.
#[tactic(auto, using(crate::proofs::Walks::run_steps), unfolding(crate::specs::Run::runs))]
pub fn run<M: Manner>(wait: Wait, turns: &[u64], limit: u64) -> AndWait<Progress<Ending>>
    ensures { result ≡ runs M.manner wait turns.now limit }
{
    let (groups, rest) = turns.as_chunks::<TURN_WIDTH>();
    if !rest.is_empty() {
        return ran_as(Err(Refusal::Storage), 0, wait);
    }
    let allowed = &groups[..(limit as usize).min(groups.len())];
    let mut reached = wait;
    for (taken, numbers) in allowed.iter().enumerate() {
        match turn::<M>(reached, Observed::from(*numbers)) {
            Err(refusal) => return ran_as(Err(refusal), taken as u64, reached),
            Ok(turned) => match turned.answer {
                ControlFlow::Continue(_) => reached = turned.wait,
                ControlFlow::Break(ending) => {
                    return ran_as(Ok(Some(ending)), taken as u64 + 1, turned.wait);
                }
            },
        }
    }
    let last = stop::<M>(reached);
    ran_as(last, allowed.len() as u64, reached)
}

// Ends a wait before it has ended: one that holds a unit is to give it back. How much, 0 or 1, is an amount of the limiter's units.
// Ruled out: a held unit that is kept; one given back that was not held.
#[tactic(auto, unfolding(crate::specs::Manner::dropped))]
pub fn drop_wait<M: Manner>(wait: Wait) -> Result<AndWait<u64>, Refusal>
    ensures { result ≡ dropped M.manner wait }
{
    tested(M::ended(wait), !wait_in_bounds(wait))?;
    Ok(AndWait {
        answer: u64::from(M::holds(wait)),
        wait: ended_wait(),
    })
}
