// The three kinds of change to a record, and the transitions made of them. Each promises for every state that the record stores.
ghost use Rattle.std.specs.Prelude.{◌≡◌, ℕ, List, length};
ghost use Rattle.breaker.specs.Record.{settings};
ghost use Rattle.breaker.specs.Rules as Rules;
ghost use Rattle.breaker.specs.Rules.{next, with_counts, with_history, moved, opening, closing, in_generation};
ghost use Rattle.steps.specs.Steps.{Applies};

use breaker::{Breaker, CLOSED, Counts, OPEN, no_counts};

// Ruled out: counts that stay; a run that is cleared with them.
pub fn with_counts(mut b: Breaker, counts: Counts) -> Breaker
    ensures { Applies (λ c st. with_counts counts st) b result }
{
    b.shared.counts = counts;
    b
}

// Ruled out: a length that stays; counts that are cleared with the run.
pub fn with_history(mut b: Breaker, run: u32, len: u32) -> Breaker
    ensures { (xs : List ℕ) → len ≡ length xs → Applies (λ c st. with_history run xs st) b result }
{
    b.shared.run = run;
    b.shared.len = len;
    b
}

// The generation after this one.
fn next_generation(generation: u64) -> u64
    ensures { result ≡ next generation }
{
    generation.wrapping_add(1)
}

// Ruled out: a generation that stays; one that does not wrap.
pub fn transition(mut b: Breaker, to: u8, until: u64) -> Breaker
    ensures { Applies (λ c st. moved to until st) b result }
{
    b.shared.state = to;
    b.shared.generation = next_generation(b.shared.generation);
    b.shared.open_until = until;
    b
}

// Ruled out: probes that stay inflight; a cooldown counted from the old open-until.
pub fn opened(b: Breaker, now_ms: u64) -> Breaker
    ensures { Applies (λ c st. opening (settings c) now_ms st) b result }
{
    let until = now_ms.saturating_add(b.config.cooldown_ms);
    transition(with_counts(b, no_counts()), OPEN, until)
}

// The record closed, for a list that is emptied.
// Ruled out: a run of failures that is kept; open-until set to 0.
pub fn closed(b: Breaker) -> Breaker
    ensures { Applies (λ c st. closing st) b result }
{
    let until = b.shared.open_until;
    let idle = with_counts(b, no_counts());
    transition(with_history(idle, 0, 0), CLOSED, until)
}

// A saved record put in force over a present generation.
// Ruled out: one past the saved generation; trials that are still out.
pub fn returned(mut saved: Breaker, present: u64) -> Breaker
    ensures { Applies (λ c st. Rules.returned present st) saved result }
{
    saved.shared.generation = next_generation(present);
    saved.shared.counts.inflight = 0;
    saved.shared.counts.trait_probes = 0;
    saved
}

// A record put in force over a present generation.
// Ruled out: a generation that starts again at 0; one that does not wrap.
pub fn renewed(mut b: Breaker, present: u64) -> Breaker
    ensures { Applies (λ c st. in_generation (next present) st) b result }
{
    b.shared.generation = next_generation(present);
    b
}
