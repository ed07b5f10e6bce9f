// The tests behind "sound", over the record alone.
ghost use Rattle.std.specs.Prelude.{◌≡◌};
ghost use Rattle.breaker.specs.Record.{sound_ratio, sound_policy, is_idle, sound_shared, items_of};

use crate::{Counts, HALF_OPEN, OPEN, Shared};
use history::{Items, MOST_ITEMS};
use trip::{Config, ONE_BITS, POLICY_CONSECUTIVE, POLICY_RATIO, POLICY_WINDOWED, SIGN_BIT};

// By the bits alone: -0.0, or a number from 0.0 to 1.0, whose bits are at most those of 1.0.
pub(crate) fn sound_ratio(bits: u64) -> bool
    ensures { result ≡ sound_ratio bits }
{
    bits == SIGN_BIT || bits <= ONE_BITS
}

#[tactic(auto, unfolding(crate::specs::Record::sound_policy))]
pub(crate) fn sound_policy(c: Config) -> bool
    ensures { result ≡ sound_policy c }
{
    match c.kind {
        POLICY_CONSECUTIVE => {
            1 <= c.limit && c.ratio_bits == 0 && c.min_calls == 0 && c.period_ms == 0
        }
        POLICY_RATIO => {
            1 <= c.limit
                && c.limit <= MOST_ITEMS
                && sound_ratio(c.ratio_bits)
                && c.min_calls <= c.limit
                && c.period_ms == 0
        }
        POLICY_WINDOWED => {
            1 <= c.limit && c.limit <= MOST_ITEMS && c.ratio_bits == 0 && c.min_calls == 0
        }
        _ => false,
    }
}

fn is_idle(counts: Counts) -> bool
    ensures { result ≡ is_idle counts }
{
    counts == Counts::default()
}

#[tactic(auto, unfolding(crate::specs::Record::sound_shared))]
pub(crate) fn sound_shared(c: Config, h: Shared) -> bool
    ensures { result ≡ sound_shared c h }
{
    h.state <= OPEN
        && h.counts.inflight <= c.trials
        && h.counts.successes < c.required
        && (h.state == HALF_OPEN || is_idle(h.counts))
}

// What the list of a breaker with these settings holds.
// Ruled out: outcomes for Windowed; a window of 4,096 whatever the settings.
pub fn items_of(c: Config) -> Items
    ensures { result ≡ items_of c }
{
    match c.kind {
        POLICY_CONSECUTIVE => Items::Nothing,
        POLICY_RATIO => Items::Outcomes(c.limit),
        _ => Items::Times,
    }
}
