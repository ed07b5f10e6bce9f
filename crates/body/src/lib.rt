// A breaker saved under a name, as bytes: the name, the record, the list.
#![tactic(auto)]

mod record;
mod save;

use history::PLACES;
pub use save::{is_name, list_in, read, size, write};

// The bytes of a name.
pub const NAME: usize = 8;

// Where the record's bytes end, and the bytes of an item: a time or an outcome.
const RECORD_END: usize = 86;

const TIME: usize = 8;

const OUTCOME: usize = 1;

// Room for the longest body, whose list is full of times.
pub const ROOM: usize = RECORD_END + PLACES * TIME;
