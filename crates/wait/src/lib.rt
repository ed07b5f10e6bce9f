// A wait for the inner limiter (wait.rs of the Rust): what every manner of waiting shares. Knows nothing of breakers.
// Times are nanoseconds. The host reads its clock, asks the limiter and sleeps; a turn says what it is to do.
#![tactic(auto)]

mod begin;
mod bounds;
mod calls;
mod leaving;
mod manner;
mod retries;

pub use begin::start;
pub use calls::{drop_wait, run, turn};
use error::Refusal;
pub use leaving::ended_wait;
pub use manner::{Manner, Tested};
pub use retries::{remaining, retry, sleeping};
use std::ops::ControlFlow;

// The phases of a wait. Any other number is an ended wait too: the record is the C caller's own, and may hold any.
pub const ENDED: u64 = 0;

pub const LOOKING: u64 = 1;

pub const HOLDING: u64 = 2;

// What no time of a turn or a start exceeds: 2^62 ns.
pub const LONGEST: u64 = 0x4000_0000_0000_0000;

// What no deadline exceeds, and a due only by what was seen: 2^63 ns.
pub const LATEST: u64 = 0x8000_0000_0000_0000;

// A wait between two turns. Made of any numbers: each call tests them. The default has ended.
#[repr(C)]
#[derive(Clone, Copy, Debug, Default, PartialEq, Eq)]
pub struct Wait {
    // looking, holding a grant, or ended
    pub phase: u64,
    // 0: no deadline; a number beside it, as the C caller's own record has it
    pub limited: u64,
    pub deadline: u64,
    // the greatest postponement since the look
    pub seen: u64,
    // when the grant may be used
    pub due: u64,
    // retries of 0 in a row, counted to 5
    pub zeros: u64,
}

// The kinds of a reply. Numbers, since the C caller's own record may hold any; not those of a decision, which are another table's.
pub const GRANTED: u64 = 1;

pub const RETRY: u64 = 2;

pub const NEVER: u64 = 3;

// How many numbers a turn is.
pub const TURN_WIDTH: usize = 8;

// What the host read for a turn, as C hands it; of each pair the first was read before the limiter was asked.
#[repr(C)]
#[derive(Clone, Copy)]
pub struct Observed {
    pub clock: u64,
    pub epoch_before: u64,
    pub epoch_after: u64,
    // of the limiter's reply
    pub kind: u64,
    pub duration: u64,
    pub pause: u64,
    pub postponed_before: u64,
    pub postponed_after: u64,
}

// What the host is to do before the next turn.
#[derive(Clone, Copy)]
pub enum Act {
    Sleep(u64),
    // at most so long, unless resumed past this epoch
    SleepUnlessResumed(u64, u64),
    Yield,
    LookAgain,
}

// How a wait ends. A deadline says how much to give back, 0 or 1: an amount of the limiter's units, told as a number.
#[derive(Clone, Copy)]
pub enum Ending {
    Done,
    Deadline(u64),
    Never,
}

// What a turn that is not refused comes to: something to do and the wait after it, or the end. An enum of its own, since an end has no wait.
#[derive(Clone, Copy)]
pub enum Move {
    Goes(Act, Wait),
    Ends(Ending),
}

// What a turn that is not refused tells: to go on so, or how the wait ends.
pub type Turned = ControlFlow<Ending, Act>;

// An answer, and the wait after it.
#[derive(Clone, Copy)]
pub struct AndWait<A> {
    pub answer: A,
    pub wait: Wait,
}

// What a run of turns came to, and the turns that it took. None: its limit or its turns are used up.
#[derive(Clone, Copy)]
pub struct Progress<E> {
    pub course: Result<Option<E>, Refusal>,
    pub taken: u64,
}
