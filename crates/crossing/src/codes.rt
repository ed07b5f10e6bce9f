// The codes that cross, each in one place, as numbers, since C has no other. The refusals' numbers stand in error, a policy's kinds in trip.

// ---- the table's numbers where a call is told something else than a refusal
pub const TOLD_SHED: u32 = 6;

pub const TOLD_RETRY: u32 = 7;

pub const TOLD_IMPOSSIBLE: u32 = 8;

pub const TOLD_DEADLINE: u32 = 9;

pub const TOLD_UNFINISHED: u32 = 10;

// ---- kinds of an inner limiter's reply; those of a reply to a turn are others, of another table (crate wait)
pub const REPLY_ACQUIRED: u8 = 1;

pub const REPLY_RETRY: u8 = 2;

pub const REPLY_IMPOSSIBLE: u8 = 3;

// ---- kinds of its reply to a reservation
pub const RESERVED_NOTHING: u8 = 0;

pub const RESERVED_WAIT: u8 = 1;

// ---- what a turn that is told 0 came to: the wait ended admitted, or what the host is to do
pub const ADMITTED: u64 = 0;

pub const SLEEP: u64 = 1;

pub const SLEEP_UNLESS_RESUMED: u64 = 2;

pub const YIELD: u64 = 3;

pub const LOOK_AGAIN: u64 = 4;
