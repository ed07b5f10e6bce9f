// The breaker's own calls for C. One that is refused leaves all as it was.
ghost use Rattle.std.specs.Prelude.{◌≡◌, true};
ghost use Rattle.error.specs.Choice.{flag_of};
ghost use Rattle.breaker.specs.Record.{HalfOpen, sound};
ghost use Rattle.breaker.specs.Rules as Rules;
ghost use Rattle.breaker.specs.Calls as Calls;
ghost use Rattle.breaker.specs.Calls.{on_sound, asked};
ghost use Rattle.breaker.specs.Orders.{FinishingOrders};
ghost use Rattle.breaker.specs.Batch.{slices, finished_all};
ghost use Rattle.crossing.specs.Crossing.{packed, crossing, crossed, crossings, crossed_all};
ghost use Rattle.crossing.specs.Crossing.{ticket_by, is_reply, decision_by, on_reply, built_by, reconfigured_by};

use breaker::Breaker;
use crossing::{PlainTicket, Setting, Told};

// Puts a fresh breaker into record and storage.
// An unknown policy kind is told 4, after 3 and before 1 and 2.
// Ruled out: an unknown kind taken for Windowed; a refused build that empties the storage.
#[unsafe(no_mangle)]
pub extern "C" fn pudvirez_build(breaker: &mut Breaker, list: &mut [u64], setting: Setting) -> Told
    ensures { crossing result breaker.new list.new ≡ crossed (built_by setting breaker.old list.old) }
{
    let s = plain::build(*breaker, list, setting);
    *breaker = s.breaker;
    s.answer
}

// Puts new settings in force: a fresh record of the next generation. An unknown policy kind is told 4, after 3 and before 1 and 2.
// Ruled out: a generation that starts again at 0; a refused setting that empties the storage.
#[unsafe(no_mangle)]
pub extern "C" fn pudvirez_reconfigure(
    breaker: &mut Breaker,
    list: &mut [u64],
    setting: Setting,
) -> Told
    ensures { crossing result breaker.new list.new ≡ crossed (reconfigured_by setting breaker.old list.old) }
{
    let s = plain::reconfigure(*breaker, list, setting);
    *breaker = s.breaker;
    s.answer
}

// Admits a call, through the trait side or not: 0 with generation and probe flag, or 6 with the delay.
// Ruled out: one that sheds every call; one that grants generation 0 to all.
#[unsafe(no_mangle)]
pub extern "C" fn pudvirez_admit_as(
    breaker: &mut Breaker,
    list: &mut [u64],
    now_ms: u64,
    via_trait: u8,
) -> Told
    ensures { crossing result breaker.new list.new
        ≡ crossed (on_sound (Calls.admission (flag_of via_trait) now_ms) breaker.old list.old) }
{
    let s = plain::admit_as(*breaker, list, now_ms, via_trait);
    *breaker = s.breaker;
    s.answer
}

// Admits a call whose inner limiter gave this reply to a request of 1. An unknown reply is told 11, after 3 and 4.
// Ruled out: an unknown kind taken for Impossible; a probe kept after an inner retry.
#[unsafe(no_mangle)]
pub extern "C" fn pudvirez_try_admit(
    breaker: &mut Breaker,
    list: &mut [u64],
    now_ms: u64,
    inner_kind: u8,
    inner_ms: u64,
    capacity: u32,
) -> Told
    ensures { crossing result breaker.new list.new
        ≡ crossed
        (on_reply (is_reply inner_kind) (Calls.try_admit (decision_by inner_kind inner_ms) capacity now_ms) breaker.old list.old) }
{
    let s = plain::try_admit(*breaker, list, now_ms, inner_kind, inner_ms, capacity);
    *breaker = s.breaker;
    s.answer
}

// Reports the outcome of a call with its ticket.
// Ruled out: one that ignores its ticket; an answer of 0 with the old record left.
#[unsafe(no_mangle)]
pub extern "C" fn pudvirez_settle(
    breaker: &mut Breaker,
    list: &mut [u64],
    now_ms: u64,
    ticket: PlainTicket,
    success: u8,
) -> Told
    ensures { crossing result breaker.new list.new
        ≡ crossed (on_sound (Calls.settle now_ms (ticket_by ticket) (flag_of success)) breaker.old list.old) }
{
    let s = plain::settle(*breaker, list, now_ms, ticket, success);
    *breaker = s.breaker;
    s.answer
}

// Gives an admission back without an outcome, through the trait side or not.
// Ruled out: a trait abort that leaves the trait probes; an abort of a stale probe.
#[unsafe(no_mangle)]
pub extern "C" fn pudvirez_abort_as(
    breaker: &mut Breaker,
    list: &mut [u64],
    ticket: PlainTicket,
    via_trait: u8,
) -> Told
    ensures { crossing result breaker.new list.new
        ≡ crossed (on_sound (Calls.abort_as (ticket_by ticket) (flag_of via_trait)) breaker.old list.old) }
{
    let s = plain::abort_as(*breaker, list, ticket, via_trait);
    *breaker = s.breaker;
    s.answer
}

// Forces the breaker Closed and empties its history.
// Ruled out: a generation kept from Closed; open-until set to 0.
#[unsafe(no_mangle)]
pub extern "C" fn pudvirez_reset(breaker: &mut Breaker, list: &mut [u64]) -> Told
    ensures { crossing result breaker.new list.new ≡ crossed (on_sound (λ s st. Rules.reset st) breaker.old list.old) }
{
    let s = plain::reset(*breaker, list);
    *breaker = s.breaker;
    s.answer
}

// Reports an outcome without a ticket.
// Ruled out: one that frees a probe it did not use up; one that uses up two.
#[unsafe(no_mangle)]
pub extern "C" fn pudvirez_record_manual(
    breaker: &mut Breaker,
    list: &mut [u64],
    now_ms: u64,
    success: u8,
) -> Told
    ensures { crossing result breaker.new list.new
        ≡ crossed (on_sound (λ s st. Rules.manual s now_ms (flag_of success) st) breaker.old list.old) }
{
    let s = plain::record_manual(*breaker, list, now_ms, success);
    *breaker = s.breaker;
    s.answer
}

// Frees one trial that was taken through the trait side.
// Ruled out: one that frees a plain probe; one that acts outside HalfOpen.
#[unsafe(no_mangle)]
pub extern "C" fn pudvirez_release_trait_probe(breaker: &mut Breaker, list: &mut [u64]) -> Told
    ensures { crossing result breaker.new list.new
        ≡ crossed (on_sound (λ s st. Rules.done (Rules.released st)) breaker.old list.old) }
{
    let s = plain::release_trait_probe(*breaker, list);
    *breaker = s.breaker;
    s.answer
}

// Runs a sequence of finishing calls at one reading, given as slices of equal length; each call's number goes to `answers`.
// In `probes`, `settles` and `marks` 0 is false, any other number true.
// The first clause binds this code; the second says of the same rules that demand 3 holds from a sound HalfOpen breaker.
// Ruled out: one that acts on the first call only; a record left as it was before the last.
#[unsafe(no_mangle)]
pub extern "C" fn pudvirez_finish_all(
    breaker: &mut Breaker,
    list: &mut [u64],
    now_ms: u64,
    generations: &[u64],
    probes: &[u8],
    settles: &[u8],
    marks: &[u8],
    answers: &mut [u64],
) -> Told
    ensures answers_after { crossings (crossing result breaker.new list.new) answers.new
        ≡ crossed_all
        (finished_all now_ms (slices generations.now probes.now settles.now marks.now) breaker.old list.old answers.old) }
    ensures orders { sound breaker.old list.old ≡ true → breaker.old.shared.state ≡ HalfOpen
        → FinishingOrders now_ms breaker.old list.old }
{
    let s = plain::finish_all(
        *breaker,
        list,
        now_ms,
        generations,
        probes,
        settles,
        marks,
        answers,
    );
    *breaker = s.breaker;
    s.answer
}

// Whether a waiter with this ticket may still go: 0, or 6 with the delay.
// Ruled out: one that looks at the state before the generation; a delay in HalfOpen.
#[unsafe(no_mangle)]
pub extern "C" fn pudvirez_still_admits(
    breaker: &Breaker,
    list: &[u64],
    now_ms: u64,
    ticket: PlainTicket,
) -> Told
    ensures { result ≡ packed (asked (Calls.still_admitted now_ms (ticket_by ticket)) breaker.now list.now) }
{
    plain::still_admits(*breaker, list, now_ms, ticket)
}

// The board figure: failures in a thousand calls of the Ratio list.
// Ruled out: a figure for a Windowed list; one that counts the good calls.
#[unsafe(no_mangle)]
pub extern "C" fn pudvirez_board(breaker: &Breaker, list: &[u64]) -> Told
    ensures { result ≡ packed (asked Calls.board breaker.now list.now) }
{
    plain::board(*breaker, list)
}

// Whether record and storage are sound: what every call tests.
// Ruled out: a test that passes an outcome of 2; one that lets inflight exceed the trials.
#[unsafe(no_mangle)]
pub extern "C" fn pudvirez_is_sound(breaker: &Breaker, list: &[u64]) -> bool
    ensures { result ≡ sound breaker.now list.now }
{
    breaker::is_sound(*breaker, list)
}
