// Saves to come back to, for C. A call that is refused leaves all as it was.
ghost use Rattle.std.specs.Prelude.{◌≡◌, true};
ghost use Rattle.blocks.specs.Block.{check_told};
ghost use Rattle.breaker.specs.Record.{sound};
ghost use Rattle.saves.specs.Buffer.{Reading, Reads};
ghost use Rattle.checkpoints.specs.Calls.{restored, saved};
ghost use Rattle.crossing.specs.Crossing.{packed, crossing, crossed, crossing_save, crossed_save};

use breaker::Breaker;
use crossing::Told;

// Saves a breaker under a name at the used length of a buffer: 0 with the used length after it.
// Ruled out: a save that writes past its run; a name that is there twice.
#[unsafe(no_mangle)]
pub extern "C" fn pudvirez_save(
    breaker: &Breaker,
    list: &[u64],
    saves: &mut [u8],
    used: usize,
    name: &[u8],
) -> Told
    ensures { (x : Reading) × (sound breaker.now list.now ≡ true → Reads saves.old used x)
        × (crossing_save result saves.new
        ≡ crossed_save (saved x name.now breaker.now list.now saves.old used)) }
{
    plain::save(*breaker, list, saves, used, name)
}

// Comes back to the save of a name: all that was saved, in the next generation, with no trial out.
// Ruled out: a return that leaves places of a longer present list; one past the saved generation.
#[unsafe(no_mangle)]
pub extern "C" fn pudvirez_restore(
    breaker: &mut Breaker,
    list: &mut [u64],
    saves: &[u8],
    used: usize,
    name: &[u8],
) -> Told
    ensures { (x : Reading) × (sound breaker.old list.old ≡ true → Reads saves.now used x)
        × (crossing result breaker.new list.new
        ≡ crossed (restored x name.now breaker.old list.old)) }
{
    let s = plain::restore(*breaker, list, saves, used, name);
    *breaker = s.breaker;
    s.answer
}

// The check of a block by itself: 0 with where its used body begins and how long it is, or the number that it meets.
// Ruled out: a block of another version told 13; the length of the whole body.
#[unsafe(no_mangle)]
pub extern "C" fn pudvirez_check_block(block: &[u8]) -> Told
    ensures { result ≡ packed (check_told block.now) }
{
    plain::check_block(block)
}
