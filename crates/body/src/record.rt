// The record's bytes: its numbers in the order of `record_fields` (breaker), each in its width.
ghost use Rattle.std.specs.Prelude.{◌≡◌, ◌+◌, ◌≤◌, length, drop};
ghost use Rattle.le_bytes.specs.Bytes.{decoded, encoded, written, Fit};
ghost use Rattle.body.specs.Save.{widths, fields_of};
ghost use Rattle.body.specs.Record.{breaker_of, Fit-prop};

use breaker::{Breaker, Counts, Shared};
use le_bytes::{number_at, put_number};
use trip::Config;

// How many numbers the record has, and the width of each: a list of its own, since a reader has the widths before any number.
const FIELDS: usize = 16;

const WIDTHS: [usize; FIELDS] = [1, 4, 8, 4, 8, 8, 4, 4, 1, 8, 4, 4, 4, 4, 8, 4];

fn fields_of(b: Breaker) -> [u64; FIELDS]
    ensures { result ≡ fields_of b }
{
    let c = b.config;
    let h = b.shared;
    [
        u64::from(c.kind),
        u64::from(c.limit),
        c.ratio_bits,
        u64::from(c.min_calls),
        c.period_ms,
        c.cooldown_ms,
        u64::from(c.trials),
        u64::from(c.required),
        u64::from(h.state),
        h.generation,
        u64::from(h.run),
        u64::from(h.counts.inflight),
        u64::from(h.counts.trait_probes),
        u64::from(h.counts.successes),
        h.open_until,
        u64::from(h.len),
    ]
}

// The record's numbers, each within its width.
#[derive(Clone, Copy)]
struct Numbers {
    values: [u64; FIELDS],
    ghost fit: { Fit widths values } by { Fit-prop widths values },
}

impl Numbers {
    #[tactic(auto, unfolding(crate::specs::Record::breaker_of))]
    fn config(self) -> Config
        ensures { result ≡ (breaker_of self.values).config }
    {
        let [
            kind,
            limit,
            ratio_bits,
            min_calls,
            period_ms,
            cooldown_ms,
            trials,
            required,
            ..
        ] = self.values;
        Config {
            kind: kind as u8,
            limit: limit as u32,
            ratio_bits,
            min_calls: min_calls as u32,
            period_ms,
            cooldown_ms,
            trials: trials as u32,
            required: required as u32,
        }
    }

    #[tactic(auto, unfolding(crate::specs::Record::breaker_of))]
    fn shared(self) -> Shared
        ensures { result ≡ (breaker_of self.values).shared }
    {
        let [
            ..,
            state,
            generation,
            run,
            inflight,
            trait_probes,
            successes,
            open_until,
            len,
        ] = self.values;
        Shared {
            state: state as u8,
            generation,
            run: run as u32,
            counts: Counts {
                inflight: inflight as u32,
                trait_probes: trait_probes as u32,
                successes: successes as u32,
            },
            open_until,
            len: len as u32,
        }
    }

    fn breaker(self) -> Breaker
        ensures { result ≡ breaker_of self.values }
    {
        Breaker {
            config: self.config(),
            shared: self.shared(),
        }
    }
}

// The record's bytes at `at`, by a place that each width moves on: a table of places would be a third list, to keep in step with the widths.
pub(crate) fn put_record(out: &mut [u8], at: usize, b: Breaker)
    requires { at + 78 ≤ length out.old }
    ensures { out.new ≡ written at (encoded widths (fields_of b)) out.old }
{
    let mut next = at;
    for (width, value) in WIDTHS.iter().zip(&fields_of(b)) {
        put_number(out, next, *width, *value);
        next += *width;
    }
}

// The record whose bytes stand at `at`.
pub(crate) fn record_at(s: &[u8], at: usize) -> Breaker
    requires { at + 78 ≤ length s.now }
    ensures { result ≡ breaker_of (decoded widths (drop at s.now)) }
{
    let mut values = [0; FIELDS];
    let mut next = at;
    // by place: std does not say what is written through an `iter_mut` in a `zip`
    for (i, width) in WIDTHS.iter().enumerate() {
        values[i] = number_at(s, next, *width);
        next += *width;
    }
    Numbers { values }.breaker()
}
