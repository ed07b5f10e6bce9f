// Settings and policies (from circuit.rs: Trip, CircuitBreakerBuilder, Config, tripped).
#![tactic(auto)]

ghost use Rattle.std.specs.Prelude.{◌≡◌};
ghost use Rattle.std.specs.Float.{binary64};
ghost use Rattle.std.specs.Float.Ieee.{of_bits};
ghost use Rattle.trip.specs.Settings.{millis_of, of_millis, clamped_ratio, normalised_ratio, normalised_trip, settings_of, built_of};
ghost use Rattle.trip.specs.Settings.{default_builder, with_trip, with_cooldown, with_half_open};
ghost use Rattle.trip.specs.Policy.{run_reached, ratio_reached, times_reached, board_figure};

use error::Refusal;
use history::MOST_ITEMS;

// The sign among the bits of an f64. Alone it is -0.0.
pub const SIGN_BIT: u64 = 0x8000_0000_0000_0000;

// The bits of 1.0.
pub const ONE_BITS: u64 = 0x3ff0_0000_0000_0000;

// The bits of infinity. Those of a NaN, without the sign, are above them.
pub const INFINITY_BITS: u64 = 0x7ff0_0000_0000_0000;

// Whole seconds and the nanoseconds past them. A type of its own, since a caller may hand in 10^9 nanoseconds or more, which is refused and
// which std's Duration can't hold.
#[derive(Clone, Copy)]
pub struct Duration {
    pub secs: u64,
    pub nanos: u32,
}

impl Duration {
    // The milliseconds, with the rest dropped, at most 2^64 - 1; refused where the nanoseconds make a second.
    // Ruled out: a product that wraps; nanoseconds of 10^9 taken for a second.
    pub fn as_millis(self) -> Result<u64, Refusal>
        ensures { result ≡ millis_of self }
    {
        if self.nanos >= 1_000_000_000 {
            return Err(Refusal::Time);
        }
        let rest = u64::from(self.nanos / 1_000_000);
        Ok(self.secs.saturating_mul(1000).saturating_add(rest))
    }

    // The duration of so many milliseconds.
    // Ruled out: one that drops what is below a second; milliseconds taken for nanoseconds.
    pub fn from_millis(ms: u64) -> Duration
        ensures { result ≡ of_millis ms }
    {
        Duration {
            secs: ms / 1000,
            nanos: (ms % 1000 * 1_000_000) as u32,
        }
    }
}

// When a closed breaker trips.
#[derive(Clone, Copy)]
pub enum Trip {
    // after so many failures in a row
    Consecutive(u32),
    // when the share of failures among the newest `window` calls reaches `ratio`, after `min_calls`
    Ratio {
        window: u32,
        ratio: f64,
        min_calls: u32,
    },
    // when `failures` failures lie within `period`
    Windowed {
        failures: u32,
        period: Duration,
    },
}

// The settings of Ratio: a struct by value beside the case of `Trip`, since the project's list of forms asks for both (docs/DECISIONS.md).
#[derive(Clone, Copy)]
pub struct RatioSettings {
    pub window: u32,
    pub ratio: f64,
    pub min_calls: u32,
}

// NaN becomes 1.0; the rest is clamped to 0.0 to 1.0, and -0.0 stays. A number is judged by its bits, which no floating-point mode changes;
// a NaN, whose bits can't be asked for, differs from itself in every mode.
fn clamped(ratio: f64) -> f64
    ensures { result ≡ clamped_ratio ratio }
{
    if ratio != ratio {
        return 1.0;
    }
    let bits = f64::to_bits(ratio);
    if bits > SIGN_BIT {
        return 0.0;
    }
    if bits == SIGN_BIT {
        return ratio;
    }
    if bits > ONE_BITS {
        return 1.0;
    }
    ratio
}

impl RatioSettings {
    // Ruled out: min calls above the window; -0.0 turned into 0.0.
    pub fn normalised(self) -> RatioSettings
        ensures { result ≡ normalised_ratio self.window self.ratio self.min_calls }
    {
        let window = self.window.max(1);
        RatioSettings {
            window,
            ratio: clamped(self.ratio),
            min_calls: self.min_calls.min(window),
        }
    }
}

impl Trip {
    // The policy with its numbers in range.
    // Ruled out: n, window or failures left at 0; NaN kept.
    pub fn normalised(self) -> Trip
        ensures { result ≡ normalised_trip self }
    {
        match self {
            Trip::Consecutive(n) => Trip::Consecutive(n.max(1)),
            Trip::Ratio {
                window,
                ratio,
                min_calls,
            } => {
                let s = RatioSettings {
                    window,
                    ratio,
                    min_calls,
                }
                .normalised();
                Trip::Ratio {
                    window: s.window,
                    ratio: s.ratio,
                    min_calls: s.min_calls,
                }
            }
            Trip::Windowed { failures, period } => Trip::Windowed {
                failures: failures.max(1),
                period,
            },
        }
    }
}

// The kinds of a policy in a record: numbers, since a caller in C may hand in any.
pub const POLICY_CONSECUTIVE: u8 = 1;

pub const POLICY_RATIO: u8 = 2;

pub const POLICY_WINDOWED: u8 = 3;

// The settings of a breaker record, in document 01's order. Fields of another policy are 0. All 0, they are of no policy, and not sound.
#[repr(C)]
#[derive(Clone, Copy, Debug, Default, PartialEq, Eq)]
pub struct Config {
    // 1 Consecutive, 2 Ratio, 3 Windowed
    pub kind: u8,
    // n, window or failures
    pub limit: u32,
    pub ratio_bits: u64,
    pub min_calls: u32,
    pub period_ms: u64,
    pub cooldown_ms: u64,
    pub trials: u32,
    pub required: u32,
}

#[derive(Clone, Copy)]
pub struct CircuitBreakerBuilder {
    pub trip: Trip,
    pub cooldown: Duration,
    pub half_open_trials: u32,
    pub half_open_required: u32,
}

// The settings of a policy, beside the numbers that every policy has.
fn config_of(trip: Trip, cooldown_ms: u64, trials: u32, required: u32) -> Result<Config, Refusal>
    ensures { result ≡ settings_of trip cooldown_ms trials required }
{
    let shared = Config {
        kind: POLICY_CONSECUTIVE,
        cooldown_ms,
        trials,
        required,
        ..Config::default()
    };
    match trip.normalised() {
        Trip::Consecutive(n) => Ok(Config { limit: n, ..shared }),
        Trip::Ratio { window, .. } if MOST_ITEMS < window => Err(Refusal::Limit),
        Trip::Ratio {
            window,
            ratio,
            min_calls,
        } => Ok(Config {
            kind: POLICY_RATIO,
            limit: window,
            ratio_bits: ratio.to_bits(),
            min_calls,
            ..shared
        }),
        Trip::Windowed { failures, period } => {
            let period_ms = period.as_millis()?;
            if MOST_ITEMS < failures {
                return Err(Refusal::Limit);
            }
            Ok(Config {
                kind: POLICY_WINDOWED,
                limit: failures,
                period_ms,
                ..shared
            })
        }
    }
}

impl CircuitBreakerBuilder {
    pub const CONSECUTIVE: u32 = 5;

    pub const COOLDOWN_SECS: u64 = 30;

    pub const TRIALS: u32 = 1;

    pub const REQUIRED: u32 = 1;

    // Ruled out: a cooldown of 30 ms; two trials.
    pub fn new() -> Self
        ensures { result ≡ default_builder }
    {
        Self {
            trip: Trip::Consecutive(Self::CONSECUTIVE),
            cooldown: Duration {
                secs: Self::COOLDOWN_SECS,
                nanos: 0,
            },
            half_open_trials: Self::TRIALS,
            half_open_required: Self::REQUIRED,
        }
    }

    // Ruled out: a setter that normalises here; one that resets the cooldown.
    pub fn trip(mut self, trip: Trip) -> Self
        ensures { result ≡ with_trip trip self }
    {
        self.trip = trip;
        self
    }

    // Ruled out: one that keeps the old cooldown; one that drops the nanoseconds.
    pub fn cooldown(mut self, cooldown: Duration) -> Self
        ensures { result ≡ with_cooldown cooldown self }
    {
        self.cooldown = cooldown;
        self
    }

    // Ruled out: trials and required exchanged; required kept as it was.
    pub fn half_open(mut self, trials: u32, required: u32) -> Self
        ensures { result ≡ with_half_open trials required self }
    {
        self.half_open_trials = trials;
        self.half_open_required = required;
        self
    }

    // The settings of a record, normalised, or refusal 1, then 2.
    // Ruled out: 2 told before 1; a window of 4,097 taken.
    #[tactic(auto, unfolding(crate::specs::Settings::built_of))]
    pub fn config(self) -> Result<Config, Refusal>
        ensures { result ≡ built_of self }
    {
        let trials = self.half_open_trials.max(1);
        let required = self.half_open_required.max(1).min(trials);
        let cooldown_ms = self.cooldown.as_millis()?;
        config_of(self.trip, cooldown_ms, trials, required)
    }
}

// Whether a run of failures trips Consecutive.
// Ruled out: `>` for `>=`; a trip at any failure.
pub fn run_trips(run: u32, n: u32) -> bool
    ensures { result ≡ run_reached run n }
{
    run >= n
}

// Whether so many failures of so many calls trip Ratio: the quotient rounded once to an f64 is at least the ratio of the given bits.
// Ruled out: exact fractions compared; a trip before `min_calls`.
pub fn ratio_trips(failed: u32, calls: u32, min_calls: u32, ratio_bits: u64) -> bool
    ensures { result ≡ ratio_reached failed calls min_calls (of_bits binary64 ratio_bits) }
{
    if calls < 1 {
        return false;
    }
    if calls < min_calls {
        return false;
    }
    if ratio_bits % SIGN_BIT > INFINITY_BITS {
        return false;
    }
    let ratio = f64::from_bits(ratio_bits);
    f64::from(failed) / f64::from(calls) >= ratio
}

// Whether so many recent failures trip Windowed.
// Ruled out: `>` for `>=`; a trip one failure early.
pub fn times_trip(recent: u32, failures: u32) -> bool
    ensures { result ≡ times_reached recent failures }
{
    recent >= failures
}

// The board figure of a Ratio list: failures in a thousand calls.
// Ruled out: a division by 0 of an empty list; a figure rounded up.
pub fn board_figure(failed: u32, calls: u32) -> u64
    ensures { result ≡ board_figure failed calls }
{
    if calls == 0 {
        return 0;
    }
    u64::from(failed) * 1000 / u64::from(calls)
}
