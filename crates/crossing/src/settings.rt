// A setting that comes in, as the builder it stands for.
ghost use Rattle.std.specs.Prelude.{◌≡◌, if◌then◌else◌};
ghost use Rattle.crossing.specs.Crossing.{packed, is_policy, trip_by, builder_by, unknown_policy};

use crate::tell::Tell;
use crate::{Setting, Told};
use error::Refusal;
use history::PLACES;
use trip::{
    CircuitBreakerBuilder, Duration, POLICY_CONSECUTIVE, POLICY_RATIO, POLICY_WINDOWED, Trip,
};

// Whether a policy has this kind.
// Ruled out: a kind of 0 taken; a kind of 4 taken.
pub fn is_policy(kind: u8) -> bool
    ensures { result ≡ is_policy kind }
{
    (POLICY_CONSECUTIVE..=POLICY_WINDOWED).contains(&kind)
}

fn trip_by(setting: Setting) -> Trip
    ensures { result ≡ trip_by setting }
{
    match setting.kind {
        POLICY_CONSECUTIVE => Trip::Consecutive(setting.limit),
        POLICY_RATIO => Trip::Ratio {
            window: setting.limit,
            ratio: setting.ratio,
            min_calls: setting.min_calls,
        },
        _ => Trip::Windowed {
            failures: setting.limit,
            period: Duration {
                secs: setting.period_secs,
                nanos: setting.period_nanos,
            },
        },
    }
}

// The builder that a setting stands for.
// Ruled out: trials and required swapped; the period's nanoseconds as the cooldown's.
pub fn builder_by(setting: Setting) -> CircuitBreakerBuilder
    ensures { result ≡ builder_by setting }
{
    CircuitBreakerBuilder {
        trip: trip_by(setting),
        cooldown: Duration {
            secs: setting.cooldown_secs,
            nanos: setting.cooldown_nanos,
        },
        half_open_trials: setting.trials,
        half_open_required: setting.required,
    }
}

// The same where its policy's kind is one, else nothing: no TryFrom, since what is told of an unknown kind depends on the list, not on the kind.
// Ruled out: nothing for a windowed policy; a kind of 4 taken for one.
pub fn known_builder(setting: Setting) -> Option<CircuitBreakerBuilder>
    ensures { result ≡ (if is_policy setting.kind then Some (builder_by setting) else None) }
{
    is_policy(setting.kind).then(|| builder_by(setting))
}

// What a build with an unknown policy kind is told: 3, then 4.
// Ruled out: 2 told for it; 4 told where the storage isn't 4,096 places.
pub fn tell_unknown_policy(list: &[u64]) -> Told
    ensures { result ≡ packed (unknown_policy list.now) }
{
    if list.len() != PLACES {
        return Refusal::Storage.tell();
    }
    Refusal::Unsound.tell()
}
