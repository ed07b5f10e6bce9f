// What an outcome does to a record and its list: decided first, from a list that is only read, then stored. Like steps it tests nothing.
#![tactic(auto)]

ghost use Rattle.std.specs.Prelude.{◌≡◌};
ghost use Rattle.outcomes.specs.Decide.{change_of};

mod decide;
mod settle;

pub use decide::{decide_closed, decide_half_open, decide_settle};
pub use settle::{close, manual_locked, settle_closed, settle_locked, settle_unclosed};

// What an outcome in Closed does: how many of the oldest items leave the list, and the run and the list's length after it.
#[derive(Clone, Copy)]
pub struct Change {
    pub gone: u32,
    pub run: u32,
    pub len: u32,
}

// What an outcome in Closed that is not refused comes to: a change; or a change, and then it opens.
#[derive(Clone, Copy)]
pub enum Recorded {
    Counted(Change),
    Tripped(Change),
}

impl Recorded {
    fn change(self) -> Change
        ensures { result ≡ change_of self }
    {
        match self {
            Recorded::Counted(change) | Recorded::Tripped(change) => change,
        }
    }
}
