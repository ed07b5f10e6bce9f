// The record of a breaker as numbers.
use crate::world::{LIST, RECORD, World, copy};
use breaker::{Breaker, Counts, Shared};
use crossing::Told;
use trip::Config;

// A number as a field of 8 or of 32 bits holds it. An `as` that may lose bits is refused, so they are cut first.
pub(crate) fn low_byte(n: u64) -> u8 {
    (n % 0x100) as u8
}

pub(crate) fn low_word(n: u64) -> u32 {
    (n % 0x1_0000_0000) as u32
}

// The record of the fields in their places.
pub(crate) fn record_in(w: &World) -> Breaker {
    let mut fields = [0; 16];
    copy(&mut fields, &w[RECORD..LIST]);
    let [
        kind,
        limit,
        ratio_bits,
        min_calls,
        period_ms,
        cooldown_ms,
        trials,
        required,
        state,
        generation,
        run,
        inflight,
        trait_probes,
        successes,
        open_until,
        len,
    ] = fields;
    Breaker {
        config: Config {
            kind: low_byte(kind),
            limit: low_word(limit),
            ratio_bits,
            min_calls: low_word(min_calls),
            period_ms,
            cooldown_ms,
            trials: low_word(trials),
            required: low_word(required),
        },
        shared: Shared {
            state: low_byte(state),
            generation,
            run: low_word(run),
            counts: Counts {
                inflight: low_word(inflight),
                trait_probes: low_word(trait_probes),
                successes: low_word(successes),
            },
            open_until,
            len: low_word(len),
        },
    }
}

// Puts what was told and the record after it in their places.
pub(crate) fn keep(w: &mut World, told: Told, breaker: Breaker) {
    let Breaker { config, shared } = breaker;
    let counts = shared.counts;
    let numbers: [u64; LIST] = [
        told.number.into(),
        told.v1,
        told.v2,
        told.v3,
        config.kind.into(),
        config.limit.into(),
        config.ratio_bits,
        config.min_calls.into(),
        config.period_ms,
        config.cooldown_ms,
        config.trials.into(),
        config.required.into(),
        shared.state.into(),
        shared.generation,
        shared.run.into(),
        counts.inflight.into(),
        counts.trait_probes.into(),
        counts.successes.into(),
        shared.open_until,
        shared.len.into(),
    ];
    copy(w, &numbers);
}
