// The builder of a header.
ghost use Rattle.std.specs.Prelude.{◌≡◌};
ghost use Rattle.journal.specs.Replay.{trip_of, builder_of};

use lines::{Header, HeaderPolicy};
use std::num::f64_from_bits_with_nan;
use trip::{CircuitBreakerBuilder, Duration, Trip};

// The policy of a header, to build with.
fn trip_of(policy: HeaderPolicy) -> Trip
    ensures { result ≡ trip_of policy }
{
    match policy {
        HeaderPolicy::Consecutive(n) => Trip::Consecutive(n),
        HeaderPolicy::Ratio {
            window,
            bits,
            min_calls,
        } => Trip::Ratio {
            window,
            ratio: f64_from_bits_with_nan(bits),
            min_calls,
        },
        HeaderPolicy::Windowed {
            failures,
            period_ms,
        } => Trip::Windowed {
            failures,
            period: Duration::from_millis(period_ms),
        },
    }
}

// The builder that a header asks for.
pub(crate) fn builder_of(header: Header) -> CircuitBreakerBuilder
    ensures { result ≡ builder_of header }
{
    CircuitBreakerBuilder {
        trip: trip_of(header.policy),
        cooldown: Duration::from_millis(header.cooldown_ms),
        half_open_trials: header.trials,
        half_open_required: header.required,
    }
}
