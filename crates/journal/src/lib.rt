// Replays an archive journal: from bytes to bytes.
#![tactic(auto)]

ghost use Rattle.journal.specs.Replay.{Replaying, ReplayingRead};

mod header;
mod run;
mod step;
mod write;

use error::Refusal;
use history::PLACES;
use run::replay_all;

// The bytes that a journal may have. (A limit of its own: no size of a record, a store or a block hangs on it.)
const LIMIT: usize = 65536;

// The bytes of it to read: one past the limit tells that it is longer.
pub const READ: usize = LIMIT + 1;

// Room for every answer.
pub const ROOM: usize = 23 * LIMIT + 149;

// Why a journal was not replayed: its answer might not fit the buffer, or the storage has other than 4,096 places.
#[derive(Clone, Copy, Debug, PartialEq, Eq)]
pub enum NotReplayed {
    TooSmall,
    Refused(Refusal),
}

// The answer to the journal `input`, into `out`; tells its length.
// Ruled out: one that goes on after a malformed line; one that prints inflight for successes.
pub fn replay(input: &[u8], list: &mut [u64], out: &mut [u8]) -> Result<usize, NotReplayed>
    ensures { Replaying input.now list.old list.new out.old out.new result }
{
    let n = input.len().min(LIMIT);
    if out.len() < 23 * n + 149 {
        return Err(NotReplayed::TooSmall);
    }
    if list.len() != PLACES {
        return Err(NotReplayed::Refused(Refusal::Storage));
    }
    let more = n < input.len();
    Ok(replay_all(&input[..n], more, list, out))
}

// The answer to a journal of any length, of which n bytes were read into `input`: all, or as many as it holds. There is always room.
// (An array with n beside it: its type holds a program to a buffer of READ bytes.)
// Ruled out: an input of 65,536 bytes, where a longer journal looks like one that ends there; an output one byte smaller.
pub fn replay_read(
    input: &[u8; READ],
    n: usize,
    list: &mut [u64; PLACES],
    out: &mut [u8; ROOM],
) -> usize
    ensures { ReplayingRead input.now n list.old list.new out.old out.new result }
{
    let k = n.min(READ);
    replay(&input[..k], list, out).unwrap()
}
