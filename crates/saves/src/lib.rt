// A buffer of saves: what its used blocks hold, and where a name is.
#![tactic(auto)]

mod buffer;

use blocks::MOST_BLOCKS;
pub use body::ROOM;
pub use buffer::look;

// As many saves as the largest buffer has room for.
const MOST_SAVES: usize = MOST_BLOCKS as usize;

// A save that stands at the front of bytes: its name, as a number, and how many bytes its body has.
#[derive(Clone, Copy)]
struct Stands {
    name: u64,
    size: usize,
}
