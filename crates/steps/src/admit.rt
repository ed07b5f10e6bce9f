// Admission, and whether a waiter may still go.
ghost use Rattle.std.specs.Prelude.{◌≡◌};
ghost use Rattle.breaker.specs.Record.{settings};
ghost use Rattle.breaker.specs.Rules.{admit, admit_as, still_admits};
ghost use Rattle.steps.specs.Steps.{OnStored, entry, verdict};

use crate::update::{transition, with_counts};
use breaker::{
    Answered, Breaker, CLOSED, Counts, Delay, HALF_OPEN, OPEN, Ticket, delayed, no_counts,
};

// A ticket of the record's generation.
fn granted(breaker: Breaker, probe: bool) -> Answered<Ticket>
    ensures { result ≡ record { answer = record { generation = breaker.shared.generation; probe = probe }; breaker = breaker } }
{
    let generation = breaker.shared.generation;
    Answered {
        answer: Ticket { generation, probe },
        breaker,
    }
}

// A ticket and the record after it, or the delay of a shed.
// Ruled out: a shed at open-until itself; a trial beyond the trials.
pub fn admit_locked(b: Breaker, now_ms: u64) -> Result<Answered<Ticket>, Delay>
    ensures { OnStored b (λ c st. result ≡ entry c (admit (settings c) now_ms st)) }
{
    let h = b.shared;
    if h.state == CLOSED {
        return Ok(granted(b, false));
    }
    if h.state == OPEN {
        if now_ms < h.open_until {
            return Err(delayed(h.open_until - now_ms));
        }
        let first = Counts {
            inflight: 1,
            ..no_counts()
        };
        return Ok(granted(
            transition(with_counts(b, first), HALF_OPEN, h.open_until),
            true,
        ));
    }
    if h.counts.inflight >= b.config.trials {
        return Err(delayed(0));
    }
    let more = Counts {
        inflight: h.counts.inflight + 1,
        ..h.counts
    };
    Ok(granted(with_counts(b, more), true))
}

// Ruled out: a trait probe counted for a plain admission; one counted for a ticket without a probe.
pub fn admit_as_locked(b: Breaker, now_ms: u64, via_trait: bool) -> Result<Answered<Ticket>, Delay>
    ensures { OnStored b (λ c st. result ≡ entry c (admit_as via_trait (settings c) now_ms st)) }
{
    let admitted = admit_locked(b, now_ms)?;
    if !via_trait || !admitted.answer.probe {
        return Ok(admitted);
    }
    let counts = admitted.breaker.shared.counts;
    let noted = Counts {
        trait_probes: counts.trait_probes.saturating_add(1),
        ..counts
    };
    Ok(Answered {
        answer: admitted.answer,
        breaker: with_counts(admitted.breaker, noted),
    })
}

// Nothing where a waiter may still go, else the delay.
// Ruled out: a shed of the present generation while Open; a delay above 0 in HalfOpen.
pub fn still_admits_locked(b: Breaker, now_ms: u64, ticket: Ticket) -> Result<(), Delay>
    ensures { OnStored b (λ c st. result ≡ verdict (still_admits now_ms ticket st)) }
{
    let h = b.shared;
    if ticket.generation == h.generation || h.state == CLOSED {
        return Ok(());
    }
    if h.state == OPEN {
        return Err(delayed(h.open_until.saturating_sub(now_ms)));
    }
    Err(delayed(0))
}
