// A sequence of finishing calls on one breaker, which is tested once.
#![tactic(auto)]

ghost use Rattle.std.specs.Prelude.{◌≡◌, true, length};
ghost use Rattle.error.specs.Told.{nothing};
ghost use Rattle.breaker.specs.Record.{HalfOpen, sound};
ghost use Rattle.breaker.specs.Rules.{done};
ghost use Rattle.breaker.specs.Calls.{after, done_by_value, kept};
ghost use Rattle.breaker.specs.Orders.{FinishingOrders, in_turn};
ghost use Rattle.breaker.specs.Batch.{batch, slices, calls, numbers, finished_all};

use breaker::{Breaker, CLOSED, Ticket, test};
use error::Refusal;
use outcomes::{Recorded, settle_closed, settle_unclosed};
use steps::{abort_locked, opened, with_history};

// The calls in turn: each gets what the one before it left. A settle is as `settle_locked` has it, but in parts, and what is decided is put in force
// here: as one call, or with the record handed in and out of it, it would move a record for each of a batch (docs/PERFORMANCE.md). The slices stay
// apart, since C lends them so. They are read by index: of what is written through the `iter_mut` of a zip nothing is known after the loop, so the
// answers could not be proved. (A struct of a sound breaker would have to lend the list, so it is asked of the caller.)
fn finish_each(
    start: Breaker,
    list: &mut [u64],
    now_ms: u64,
    generations: &[u64],
    probes: &[u8],
    settles: &[u8],
    marks: &[u8],
    answers: &mut [u64],
) -> Breaker
    requires sound_start { sound start list.old ≡ true }
    requires equal_lengths { (length probes.now ≡ length generations.now) × (length settles.now ≡ length generations.now)
        × (length marks.now ≡ length generations.now) × (length answers.old ≡ length generations.now) }
    ensures { batch (after nothing result list.new) answers.new
        ≡
        (let ran = in_turn now_ms start list.old (calls (slices generations.now probes.now settles.now marks.now)) in
        batch (kept start.config (done ran.after)) (numbers ran.answers)) }
{
    let mut b = start;
    for i in 0..generations.len() {
        let generation = generations[i];
        let probe = probes[i] != 0;
        let ticket = Ticket { generation, probe };
        let settle = settles[i] != 0;
        let mark = marks[i] != 0;
        if !settle {
            b = abort_locked(b, ticket, mark);
            answers[i] = 0;
        } else if b.shared.state != CLOSED {
            b = settle_unclosed(b, list, now_ms, ticket, mark);
            answers[i] = 0;
        } else if ticket.generation != b.shared.generation {
            answers[i] = 0;
        } else {
            match settle_closed(b, list, now_ms, mark) {
                Ok(Recorded::Counted(change)) => {
                    b = with_history(b, change.run, change.len);
                    answers[i] = 0;
                }
                Ok(Recorded::Tripped(change)) => {
                    b = opened(with_history(b, change.run, change.len), now_ms);
                    answers[i] = 0;
                }
                Err(refusal) => answers[i] = u64::from(refusal.number()),
            }
        }
    }
    b
}

// Runs a sequence of finishing calls at one reading, given as slices of equal length; each call's number goes to `answers`, a slice of numbers
// since C lends it.
// In `probes`, `settles` and `marks` 0 is false, any other number true.
// The first clause binds this code; the second says of the same rules what finishing orders do from a sound HalfOpen breaker.
// Ruled out: one that acts on every other call; one that goes on from a stale record.
pub fn finish_all(
    breaker: Breaker,
    list: &mut [u64],
    now_ms: u64,
    generations: &[u64],
    probes: &[u8],
    settles: &[u8],
    marks: &[u8],
    answers: &mut [u64],
) -> Result<Breaker, Refusal>
    ensures answers_after { batch (done_by_value result breaker list.new) answers.new
        ≡ finished_all now_ms (slices generations.now probes.now settles.now marks.now) breaker
        list.old answers.old }
    ensures orders { sound breaker list.old ≡ true → breaker.shared.state ≡ HalfOpen → FinishingOrders now_ms breaker list.old }
{
    let n = generations.len();
    if probes.len() != n || settles.len() != n || marks.len() != n || answers.len() != n {
        return Err(Refusal::Storage);
    }
    test(breaker, list)?;
    Ok(finish_each(
        breaker,
        list,
        now_ms,
        generations,
        probes,
        settles,
        marks,
        answers,
    ))
}
