// Why a call is refused: rows 1 to 5, 11 and 13 to 15 of the table, which the Rust doesn't have.
#![tactic(auto)]

ghost use Rattle.std.specs.Prelude.{◌≡◌};
ghost use Rattle.error.specs.Told.{number_of};

// Why a call was refused: record and list are as they were. Each has its number of the table.
#[derive(Clone, Copy, Debug, PartialEq, Eq)]
pub enum Refusal {
    // a nanoseconds field of 10^9 or more, or a wait's time over its bound
    Time = 1,
    // the normalised window or failures over 4,096
    Limit = 2,
    // storage of other than 4,096 places, turns that are no multiple of 8, or slices of a batch of unequal length
    Storage = 3,
    // the record or the list is not sound
    Unsound = 4,
    // a failure while Closed, with 4,096 older times left after eviction
    Full = 5,
    // a reply kind other than 1 to 3, or a wait that has ended
    Turn = 11,
    // a buffer of saves that is none: its sizes, a sum, a header, a body, a zero byte, a name twice, a record that is not sound
    Damaged = 13,
    // a block of an unknown version
    Version = 14,
    // a name that is not one, is already there or is absent, or blocks that do not fit
    Name = 15,
}

impl Refusal {
    // The number of a refusal in the table.
    // Ruled out: a table that is off by one; one that tells 4 where the storage is wrong.
    pub fn number(self) -> u32
        ensures { result ≡ number_of self }
    {
        self as u32
    }
}
