// The lines of the sample, as what they ask and what they expect (oracle/README.md).
// A line that is none of the sample's is None. What a line expects may be any numbers: what is too wide for its field is never come to.
use crate::asked::{Call, Op, Outcome, Start, Turn};
use crate::numbers::Numbers;
use crate::want::HALF;
use breaker::{Counts, Decision, Delay, OPEN, Shared, Ticket};
use crossing::Setting;
use std::num::f64_from_bits_with_nan;
use trip::CircuitBreakerBuilder;
use wait::TURN_WIDTH;

// What a line expects of its call: what is told, and the record without its settings.
#[derive(Clone, Copy)]
pub(crate) struct Due {
    pub(crate) told: [u64; 4],
    pub(crate) shared: [u64; HALF],
}

impl Due {
    // The length of the list.
    pub(crate) fn len(self) -> u64 {
        self.shared[HALF - 1]
    }
}

// What the list loses at its front, and what it takes at its end.
#[derive(Clone, Copy)]
pub(crate) struct Moved<'a> {
    pub(crate) popped: u64,
    pub(crate) pushed: &'a [u64],
}

// A call on the breaker, what it is due, and how the list moves.
#[derive(Clone, Copy)]
pub(crate) struct Step<'a> {
    pub(crate) call: Call,
    pub(crate) due: Due,
    pub(crate) moved: Moved<'a>,
}

#[derive(Clone, Copy)]
pub(crate) enum Line<'a> {
    // a fresh breaker, and what its settings become
    Build(CircuitBreakerBuilder, [u64; HALF]),
    // the rest of a breaker's record, and its list
    State(Shared, &'a [u64]),
    Step(Step<'a>),
    Start(Start, Due),
    Turn(Turn, Due),
    Drop(Due),
    // a call between two turns
    Between(Step<'a>),
}

impl<'a> Line<'a> {
    pub(crate) fn read(numbers: &'a [u64]) -> Option<Self> {
        let mut numbers = Numbers(numbers);
        let [kind] = numbers.take::<1>()?;
        match kind {
            0 => Some(Line::Build(numbers.builder()?, numbers.last_half()?)),
            1 => numbers.state(),
            2 => Some(Line::Step(numbers.step()?)),
            3 => Some(Line::Start(numbers.start()?, numbers.last_due()?)),
            4 => Some(Line::Turn(numbers.turn()?, numbers.last_due()?)),
            5 => Some(Line::Drop(numbers.last_due()?)),
            6 => Some(Line::Between(numbers.step_between()?)),
            _ => None,
        }
    }
}

fn flag(number: u64) -> Option<bool> {
    match number {
        0 => Some(false),
        1 => Some(true),
        _ => None,
    }
}

fn ticket(generation: u64, probe: u64) -> Option<Ticket> {
    Some(Ticket {
        generation,
        probe: flag(probe)?,
    })
}

fn decision(reply: u64, ms: u64) -> Option<Decision> {
    crossing::known_decision(reply.try_into().ok()?, ms)
}

fn reservation(reply: u64, ms: u64) -> Option<Option<Delay>> {
    crossing::known_reservation(reply.try_into().ok()?, ms)
}

fn outcome(number: u64) -> Option<Outcome> {
    match number {
        1 => Some(Outcome::Success),
        2 => Some(Outcome::Failure),
        3 => Some(Outcome::Dropped),
        4 => Some(Outcome::Cancelled),
        _ => None,
    }
}

// An operation by its number and the three numbers that it takes: one of the breaker's own, or else one that the inner limiter takes part in.
fn op(numbers: [u64; 4]) -> Option<Op> {
    Some(match numbers {
        [1, via_trait, 0, 0] => Op::AdmitAs {
            via_trait: flag(via_trait)?,
        },
        [2, generation, probe, success] => Op::Settle {
            ticket: ticket(generation, probe)?,
            success: flag(success)?,
        },
        [3, generation, probe, via_trait] => Op::AbortAs {
            ticket: ticket(generation, probe)?,
            via_trait: flag(via_trait)?,
        },
        [4, 0, 0, 0] => Op::ReleaseTraitProbe,
        [5, success, 0, 0] => Op::RecordManual {
            success: flag(success)?,
        },
        [6, 0, 0, 0] => Op::Reset,
        [7, generation, probe, 0] => Op::StillAdmits {
            ticket: ticket(generation, probe)?,
        },
        [9, generation, probe, number] => Op::Permit {
            ticket: ticket(generation, probe)?,
            outcome: outcome(number)?,
        },
        [kind, first, second, third] => inner_op(kind, first, second, third.try_into().ok()?)?,
    })
}

// The last number has 32 bits, also where the breaker does not read it: the sample has the cost all the same.
fn inner_op(kind: u64, reply: u64, ms: u64, last: u32) -> Option<Op> {
    Some(match kind {
        8 => Op::TryAdmit {
            inner: decision(reply, ms)?,
            capacity: last,
        },
        10 => Op::Peek {
            inner: decision(reply, ms)?,
        },
        11 => Op::AcquireCost {
            inner: decision(reply, ms)?,
        },
        12 => Op::Reserve {
            inner: reservation(reply, ms)?,
        },
        13 => Op::Available {
            inner: decision(reply, ms)?,
            count: last,
        },
        14 if ms == 0 => Op::Charge {
            cost: reply.try_into().ok()?,
        },
        15 if reply == 0 && ms == 0 => Op::Refund { cost: last },
        _ => return None,
    })
}

impl<'a> Numbers<'a> {
    fn builder(&mut self) -> Option<CircuitBreakerBuilder> {
        let [
            kind,
            limit,
            ratio_bits,
            min_calls,
            period_secs,
            period_nanos,
            cooldown_secs,
            cooldown_nanos,
            trials,
            required,
        ] = self.take::<10>()?;
        let setting = Setting {
            kind: kind.try_into().ok()?,
            limit: limit.try_into().ok()?,
            ratio: f64_from_bits_with_nan(ratio_bits),
            min_calls: min_calls.try_into().ok()?,
            period_secs,
            period_nanos: period_nanos.try_into().ok()?,
            cooldown_secs,
            cooldown_nanos: cooldown_nanos.try_into().ok()?,
            trials: trials.try_into().ok()?,
            required: required.try_into().ok()?,
        };
        crossing::known_builder(setting)
    }

    // Half a record, which is the last of the line.
    fn last_half(mut self) -> Option<[u64; HALF]> {
        let half = self.take()?;
        self.end()?;
        Some(half)
    }

    fn shared(&mut self) -> Option<Shared> {
        let [
            state,
            generation,
            run,
            inflight,
            trait_probes,
            successes,
            open_until,
            len,
        ] = self.take::<8>()?;
        Some(Shared {
            state: state.try_into().ok()?,
            generation,
            run: run.try_into().ok()?,
            counts: Counts {
                inflight: inflight.try_into().ok()?,
                trait_probes: trait_probes.try_into().ok()?,
                successes: successes.try_into().ok()?,
            },
            open_until,
            len: len.try_into().ok()?,
        })
    }

    fn state(mut self) -> Option<Line<'a>> {
        let shared = self.shared()?;
        let items = self.rest(shared.len.into())?;
        (shared.state <= OPEN).then_some(Line::State(shared, items))
    }

    fn due(&mut self) -> Option<Due> {
        Some(Due {
            told: self.take()?,
            shared: self.take()?,
        })
    }

    fn last_due(mut self) -> Option<Due> {
        let due = self.due()?;
        self.end()?;
        Some(due)
    }

    fn moved(mut self) -> Option<Moved<'a>> {
        let [popped, pushed] = self.take::<2>()?;
        Some(Moved {
            popped,
            pushed: self.rest(pushed)?,
        })
    }

    fn call(&mut self) -> Option<Call> {
        let [kind, now_ms, first, second, third, unused] = self.take::<6>()?;
        let op = op([kind, first, second, third])?;
        (unused == 0).then_some(Call { op, now_ms })
    }

    fn step(mut self) -> Option<Step<'a>> {
        Some(Step {
            call: self.call()?,
            due: self.due()?,
            moved: self.moved()?,
        })
    }

    // Between turns only the calls up to a reset are made.
    fn step_between(self) -> Option<Step<'a>> {
        match self.0 {
            [0..=6, ..] => self.step(),
            _ => None,
        }
    }

    fn start(&mut self) -> Option<Start> {
        let [now_ms, clock, limited, timeout] = self.take::<4>()?;
        Some(Start {
            now_ms,
            clock,
            limited: flag(limited)?,
            timeout,
        })
    }

    fn turn(&mut self) -> Option<Turn> {
        let [now_ms, capacity] = self.take::<2>()?;
        let observed: [u64; TURN_WIDTH] = self.take()?;
        Some(Turn {
            observed: observed.into(),
            now_ms,
            capacity: capacity.try_into().ok()?,
        })
    }
}
