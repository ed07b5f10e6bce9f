// The breaker's own calls: numbers in, the call by value, numbers out.
ghost use Rattle.std.specs.Prelude.{◌≡◌, true};
ghost use Rattle.error.specs.Choice.{flag_of};
ghost use Rattle.breaker.specs.Record.{HalfOpen, sound};
ghost use Rattle.breaker.specs.Rules as Rules;
ghost use Rattle.breaker.specs.Calls as Calls;
ghost use Rattle.breaker.specs.Calls.{on_sound, asked};
ghost use Rattle.breaker.specs.Orders.{FinishingOrders};
ghost use Rattle.breaker.specs.Batch.{slices, finished_all};
ghost use Rattle.crossing.specs.Crossing.{packed, crossing, crossed, crossings, crossed_all};
ghost use Rattle.crossing.specs.Crossing.{ticket_by, is_reply, decision_by, on_reply, built_by, reconfigured_by};

use crate::pack::{told, told_done, told_unknown};
use breaker::{Answered, Breaker};
use crossing::{
    PlainTicket, Setting, Tell, Told, known_builder, known_decision, tell_unknown,
    tell_unknown_policy,
};

// Puts a fresh breaker into record and storage. An unknown policy kind is told 4, after 3 and before 1 and 2.
// Ruled out: an unknown kind handed to the builder; a refused build told 0.
#[tactic(auto, unfolding(crossing::specs::Crossing::crossed, crossing::specs::Crossing::built_by))]
pub fn build(breaker: Breaker, list: &mut [u64], setting: Setting) -> Answered<Told>
    ensures { crossing result.answer result.breaker list.new ≡ crossed (built_by setting breaker list.old) }
{
    let Some(builder) = known_builder(setting) else {
        return Answered {
            answer: tell_unknown_policy(list),
            breaker,
        };
    };
    told_done(breaker::build(list, builder), breaker)
}

// Puts new settings in force: a fresh record of the next generation. An unknown policy kind is told 4, after 3 and before 1 and 2.
// Ruled out: a generation that starts again at 0; an unknown kind handed to the builder.
#[tactic(auto, unfolding(crossing::specs::Crossing::crossed, crossing::specs::Crossing::reconfigured_by))]
pub fn reconfigure(breaker: Breaker, list: &mut [u64], setting: Setting) -> Answered<Told>
    ensures { crossing result.answer result.breaker list.new ≡ crossed (reconfigured_by setting breaker list.old) }
{
    let Some(builder) = known_builder(setting) else {
        return Answered {
            answer: tell_unknown_policy(list),
            breaker,
        };
    };
    told_done(circuit::reconfigure(breaker, list, builder), breaker)
}

// Admits a call, through the trait side or not.
// Ruled out: a shed told without its delay; a probe told with a flag of 0.
pub fn admit_as(breaker: Breaker, list: &mut [u64], now_ms: u64, via_trait: u8) -> Answered<Told>
    ensures { crossing result.answer result.breaker list.new
        ≡ crossed (on_sound (Calls.admission (flag_of via_trait) now_ms) breaker list.old) }
{
    told(
        admission::admit_as(breaker, list, now_ms, via_trait != 0),
        breaker,
    )
}

// Admits a call whose inner limiter gave this reply to a request of 1. An unknown reply is told 11, after 3 and 4.
// Ruled out: an inner retry told 6; 11 told before 3 and 4.
#[tactic(auto, unfolding(crossing::specs::Crossing::on_reply))]
pub fn try_admit(
    breaker: Breaker,
    list: &mut [u64],
    now_ms: u64,
    inner_kind: u8,
    inner_ms: u64,
    capacity: u32,
) -> Answered<Told>
    ensures { crossing result.answer result.breaker list.new
        ≡ crossed (on_reply (is_reply inner_kind) (Calls.try_admit (decision_by inner_kind inner_ms) capacity now_ms) breaker list.old) }
{
    let Some(inner) = known_decision(inner_kind, inner_ms) else {
        return told_unknown(breaker, list);
    };
    told(
        admission::try_admit(breaker, list, now_ms, inner, capacity),
        breaker,
    )
}

// Reports the outcome of a call with its ticket.
// Ruled out: success and failure swapped; a failure that meets 5 told 0.
pub fn settle(
    breaker: Breaker,
    list: &mut [u64],
    now_ms: u64,
    ticket: PlainTicket,
    success: u8,
) -> Answered<Told>
    ensures { crossing result.answer result.breaker list.new
        ≡ crossed (on_sound (Calls.settle now_ms (ticket_by ticket) (flag_of success)) breaker list.old) }
{
    told_done(
        circuit::settle(breaker, list, now_ms, ticket.into(), success != 0),
        breaker,
    )
}

// Gives an admission back without an outcome, through the trait side or not.
// Ruled out: a trait abort made a plain one; the record before the abort returned.
pub fn abort_as(
    breaker: Breaker,
    list: &mut [u64],
    ticket: PlainTicket,
    via_trait: u8,
) -> Answered<Told>
    ensures { crossing result.answer result.breaker list.new
        ≡ crossed (on_sound (Calls.abort_as (ticket_by ticket) (flag_of via_trait)) breaker list.old) }
{
    told_done(
        circuit::abort_as(breaker, list, ticket.into(), via_trait != 0),
        breaker,
    )
}

// Forces the breaker Closed and empties its history.
// Ruled out: the record before the reset returned; a run of failures kept.
pub fn reset(breaker: Breaker, list: &mut [u64]) -> Answered<Told>
    ensures { crossing result.answer result.breaker list.new ≡ crossed (on_sound (λ s st. Rules.reset st) breaker list.old) }
{
    told_done(circuit::reset(breaker, list), breaker)
}

// Reports an outcome without a ticket.
// Ruled out: success and failure swapped; a failure that meets 5 told 0.
pub fn record_manual(breaker: Breaker, list: &mut [u64], now_ms: u64, success: u8) -> Answered<Told>
    ensures { crossing result.answer result.breaker list.new
        ≡ crossed (on_sound (λ s st. Rules.manual s now_ms (flag_of success) st) breaker list.old) }
{
    told_done(
        circuit::record_manual(breaker, list, now_ms, success != 0),
        breaker,
    )
}

// Frees one trial that was taken through the trait side.
// Ruled out: one that frees all trait probes; the record before the release returned.
pub fn release_trait_probe(breaker: Breaker, list: &mut [u64]) -> Answered<Told>
    ensures { crossing result.answer result.breaker list.new ≡ crossed (on_sound (λ s st. Rules.done (Rules.released st)) breaker list.old) }
{
    told_done(circuit::release_trait_probe(breaker, list), breaker)
}

// Runs a sequence of finishing calls at one reading, given as slices of equal length; each call's number goes to `answers`.
// The first clause binds this code; the second says of the same rules that demand 3 holds from a sound HalfOpen breaker.
// Ruled out: the answers left as they came; the record before the last call returned.
#[tactic(auto, unfolding(crossing::specs::Crossing::crossed_all))]
pub fn finish_all(
    breaker: Breaker,
    list: &mut [u64],
    now_ms: u64,
    generations: &[u64],
    probes: &[u8],
    settles: &[u8],
    marks: &[u8],
    answers: &mut [u64],
) -> Answered<Told>
    ensures answers_after { crossings (crossing result.answer result.breaker list.new) answers.new
        ≡ crossed_all
        (finished_all now_ms (slices generations.now probes.now settles.now marks.now) breaker list.old answers.old) }
    ensures orders { sound breaker list.old ≡ true → breaker.shared.state ≡ HalfOpen → FinishingOrders now_ms breaker list.old }
{
    told_done(
        batch::finish_all(
            breaker,
            list,
            now_ms,
            generations,
            probes,
            settles,
            marks,
            answers,
        ),
        breaker,
    )
}

// Whether a waiter with this ticket may still go.
// Ruled out: a stale ticket told 0 while Open; a delay told in v2.
pub fn still_admits(breaker: Breaker, list: &[u64], now_ms: u64, ticket: PlainTicket) -> Told
    ensures { result ≡ packed (asked (Calls.still_admitted now_ms (ticket_by ticket)) breaker list.now) }
{
    admission::still_admits(breaker, list, now_ms, ticket.into()).tell()
}

// The board figure: failures in a thousand calls of the Ratio list.
// Ruled out: a figure in a hundred; one that counts the good calls.
pub fn board(breaker: Breaker, list: &[u64]) -> Told
    ensures { result ≡ packed (asked Calls.board breaker list.now) }
{
    circuit::board(breaker, list).tell()
}
