// Saves to come back to: numbers in, the call by value, numbers out.
ghost use Rattle.std.specs.Prelude.{◌≡◌, true};
ghost use Rattle.blocks.specs.Block.{check_told};
ghost use Rattle.breaker.specs.Record.{sound};
ghost use Rattle.saves.specs.Buffer.{Reading, Reads};
ghost use Rattle.checkpoints.specs.Calls.{restored, saved};
ghost use Rattle.crossing.specs.Crossing.{packed, crossing, crossed, crossing_save, crossed_save};

use crate::pack::told_done;
use breaker::{Answered, Breaker};
use crossing::{Tell, Told, tell_judged};

// Saves a breaker under a name at the used length of a buffer: 0 with the used length after it.
// Ruled out: a save told 0 and not written; the used length before it.
pub fn save(breaker: Breaker, list: &[u64], buffer: &mut [u8], used: usize, name: &[u8]) -> Told
    ensures { (x : Reading) × (sound breaker list.now ≡ true → Reads buffer.old used x)
        × (crossing_save result buffer.new ≡ crossed_save (saved x name.now breaker list.now buffer.old used)) }
{
    checkpoints::save(breaker, list, buffer, used, name).tell()
}

// Comes back to the save of a name: all that was saved, in the next generation, with no trial out.
// Ruled out: a return told 0 with the old record left; one past the saved generation.
pub fn restore(
    breaker: Breaker,
    list: &mut [u64],
    buffer: &[u8],
    used: usize,
    name: &[u8],
) -> Answered<Told>
    ensures { (x : Reading) × (sound breaker list.old ≡ true → Reads buffer.now used x)
        × (crossing result.answer result.breaker list.new ≡ crossed (restored x name.now breaker list.old)) }
{
    told_done(
        checkpoints::restore(breaker, list, buffer, used, name),
        breaker,
    )
}

// The check of a block by itself: 0 with where its used body begins and how long it is, or the number that it meets.
// Ruled out: a block of another version told 13; the length of the whole body.
pub fn check_block(block: &[u8]) -> Told
    ensures { result ≡ packed (check_told block.now) }
{
    tell_judged(blocks::checked(block))
}
