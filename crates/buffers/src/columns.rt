// The lines of the sample (lines.rs of oracle/saves): their kinds, and at which column a number stands.
pub(crate) const KIND: usize = 0;

// a breaker's settings, the rest of its record with its list, and a number in a field or a place
pub(crate) const FRESH: u64 = 0;

pub(crate) const START: u64 = 1;

pub(crate) const SPOT: u64 = 8;

// a buffer, and bytes in it
pub(crate) const BUFFER: u64 = 7;

pub(crate) const PATCH: u64 = 9;

// the calls
pub(crate) const SAVE: u64 = 10;

pub(crate) const RESTORE: u64 = 11;

pub(crate) const RECONFIGURE: u64 = 12;

pub(crate) const CHECK: u64 = 13;

// of a breaker: the config behind the setting; the fields from the state on, and the list behind them
pub(crate) const CONFIG: usize = 11;

pub(crate) const STATE: usize = 1;

// of a spot: a field, or a place counted from behind the fields
pub(crate) const SPOT_AT: usize = 1;

pub(crate) const SPOT_VALUE: usize = 2;

// of a buffer
pub(crate) const BUFFER_SIZE: usize = 1;

pub(crate) const BUFFER_WORDS: usize = 2;

// of a patch and of a check
pub(crate) const PART_AT: usize = 1;

pub(crate) const PART_SIZE: usize = 2;

pub(crate) const PATCH_WORDS: usize = 3;

pub(crate) const CHECK_TOLD: usize = 3;

// of a call on a breaker
pub(crate) const PLACES: usize = 1;

// of a save and of a restore, which are told behind the name
pub(crate) const SIZE: usize = 2;

pub(crate) const USED: usize = 3;

pub(crate) const NAME_SIZE: usize = 4;

pub(crate) const NAME: usize = 5;

// of a reconfigure
pub(crate) const SETTING: usize = 2;

pub(crate) const RECONFIGURE_TOLD: usize = 12;
