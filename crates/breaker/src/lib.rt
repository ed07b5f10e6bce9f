// The breaker record, its tickets and replies, and the answers of its calls, by value (circuit.rs of the Rust).
// The rules and the statement on finishing orders stand in specs/, what is proved of them in proofs/.
#![tactic(auto)]

ghost use Rattle.std.specs.Prelude.{◌≡◌};
ghost use Rattle.breaker.specs.Record.{sound, sound_record};
ghost use Rattle.breaker.specs.Calls.{guarded};

mod calls;
mod reply;
mod sound;

pub use calls::{build, delayed, no_counts};
use error::Refusal;
pub use sound::items_of;
use sound::{sound_policy, sound_shared};
use trip::Config;

// The states of a breaker: numbers, since a caller in C may hand in a record with any.
pub const CLOSED: u8 = 0;

pub const HALF_OPEN: u8 = 1;

pub const OPEN: u8 = 2;

// What is counted in HalfOpen.
#[repr(C)]
#[derive(Clone, Copy, Debug, Default, PartialEq, Eq)]
pub struct Counts {
    // trials that are out
    pub inflight: u32,
    // trials taken through the trait side and not given back
    pub trait_probes: u32,
    pub successes: u32,
}

// What calls change of a breaker, in document 01's order. All 0, it is closed and has counted nothing.
#[repr(C)]
#[derive(Clone, Copy, Debug, Default, PartialEq, Eq)]
pub struct Shared {
    // CLOSED, HALF_OPEN or OPEN
    pub state: u8,
    pub generation: u64,
    // failures in a row
    pub run: u32,
    pub counts: Counts,
    pub open_until: u64,
    // of the list in the storage
    pub len: u32,
}

#[repr(C)]
#[derive(Clone, Copy, Debug, Default, PartialEq, Eq)]
pub struct Breaker {
    pub config: Config,
    pub shared: Shared,
}

// An admission: the generation it was made under, and whether it holds a trial.
#[repr(C)]
#[derive(Clone, Copy, Debug, PartialEq, Eq)]
pub struct Ticket {
    pub generation: u64,
    pub probe: bool,
}

#[derive(Clone, Copy, Debug, PartialEq, Eq)]
pub struct Delay {
    pub ms: u64,
}

// What an inner limiter replied (decision.rs of the Rust). To a reservation it replies the wait before it, or none: `Option<Delay>`.
#[derive(Clone, Copy, Debug, PartialEq, Eq)]
pub enum Decision {
    Acquired,
    Retry(Delay),
    Impossible,
}

// Why a call was not admitted: record and list are as they were.
#[derive(Clone, Copy, Debug, PartialEq, Eq)]
pub enum NotAdmitted {
    // the breaker sheds, and the delay after which it may admit
    Shed(Delay),
    Refused(Refusal),
}

impl From<Refusal> for NotAdmitted {
    ghost use Rattle.breaker.specs.declared.NotAdmitted.TheVariants.{Refused};

    ghost from_gives = { λ r e. e ≡ Refused r };

    fn from(refusal: Refusal) -> NotAdmitted {
        NotAdmitted::Refused(refusal)
    }
}

impl From<Delay> for NotAdmitted {
    ghost use Rattle.breaker.specs.declared.NotAdmitted.TheVariants.{Shed};

    ghost from_gives = { λ d e. e ≡ Shed d };

    fn from(delay: Delay) -> NotAdmitted {
        NotAdmitted::Shed(delay)
    }
}

// What an admission with the inner limiter's reply comes to.
#[derive(Clone, Copy, Debug, PartialEq, Eq)]
pub enum Tried {
    Granted(Ticket),
    // the inner limiter says retry, and its delay is not told
    Retry,
    Impossible { cost: u32, capacity: u32 },
}

// The answer of a call by value, and the record after it.
#[derive(Clone, Copy)]
pub struct Answered<A> {
    pub answer: A,
    pub breaker: Breaker,
}

// Whether the record alone is sound.
// Ruled out: settings that are not normalised; a count above 0 outside HalfOpen.
#[tactic(auto, unfolding(crate::specs::Record::sound_config))]
pub fn sound_record(breaker: Breaker) -> bool
    ensures { result ≡ sound_record breaker }
{
    let c = breaker.config;
    sound_policy(c) && 1 <= c.required && c.required <= c.trials && sound_shared(c, breaker.shared)
}

// Whether a record and its list are sound.
// Ruled out: one that leaves out the places past the list; one that leaves out the record.
#[tactic(auto, unfolding(crate::specs::Record::sound, crate::specs::Record::sound_config))]
pub fn is_sound(breaker: Breaker, list: &[u64]) -> bool
    ensures { result ≡ sound breaker list.now }
{
    sound_record(breaker) && history::sound_list(list, breaker.shared.len, items_of(breaker.config))
}

// The tests before every call but a build: 3, then 4.
// Ruled out: soundness tested before the storage; a refusal of a sound breaker.
pub fn test(breaker: Breaker, list: &[u64]) -> Result<(), Refusal>
    ensures { result ≡ guarded Err (Ok tt) breaker list.now }
{
    if list.len() != history::PLACES {
        return Err(Refusal::Storage);
    }
    if !is_sound(breaker, list) {
        return Err(Refusal::Unsound);
    }
    Ok(())
}
