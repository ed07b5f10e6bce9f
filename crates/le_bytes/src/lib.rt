// Little-endian numbers in bytes. It knows nothing of what they mean. A function that is asked for more than there is does nothing, and reads 0:
// none of them can fail, and each caller has tested the room, so that it would only unwrap an answer.
#![tactic(auto)]

mod items;
mod numbers;

pub use items::{copy, items_at, put_items};
pub use numbers::{number_at, put_number};
