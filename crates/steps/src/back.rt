// An admission given back, and a trial freed.
ghost use Rattle.breaker.specs.Rules.{aborted, released};
ghost use Rattle.steps.specs.Steps.{Applies};

use crate::update::with_counts;
use breaker::{Breaker, Counts, HALF_OPEN, Ticket};

// Ruled out: an abort of a stale probe; a trait abort that leaves the trait probes.
#[tactic(auto, unfolding(breaker::specs::Rules::aborted))]
pub fn abort_locked(b: Breaker, t: Ticket, via_trait: bool) -> Breaker
    ensures { Applies (λ c st. aborted t via_trait st) b result }
{
    if !t.probe || t.generation != b.shared.generation || b.shared.state != HALF_OPEN {
        return b;
    }
    let counts = b.shared.counts;
    let fewer = Counts {
        inflight: counts.inflight.saturating_sub(1),
        trait_probes: counts.trait_probes.saturating_sub(u32::from(via_trait)),
        ..counts
    };
    with_counts(b, fewer)
}

// Ruled out: one that frees a plain probe; one that frees all trait probes.
pub fn release_locked(b: Breaker) -> Breaker
    ensures { Applies (λ c st. released st) b result }
{
    let counts = b.shared.counts;
    if b.shared.state != HALF_OPEN || counts.trait_probes == 0 {
        return b;
    }
    let fewer = Counts {
        inflight: counts.inflight.saturating_sub(1),
        trait_probes: counts.trait_probes - 1,
        ..counts
    };
    with_counts(b, fewer)
}
