// Saves to come back to, of a record that the caller lends. A call that is refused leaves all as it was.
ghost use Rattle.std.specs.Prelude.{◌≡◌, true};
ghost use Rattle.breaker.specs.Record.{sound};
ghost use Rattle.breaker.specs.Answers.{finished_told};
ghost use Rattle.breaker.specs.Calls.{after};
ghost use Rattle.saves.specs.Buffer.{Reading, Reads};
ghost use Rattle.checkpoints.specs.Calls.{restored, save_after, saved, saving_told};

use breaker::Breaker;
use error::Refusal;

// Saves a breaker under a name at the used length of a buffer.
// Ruled out: a save that writes past its run; a name that is there twice.
pub fn save(
    breaker: &Breaker,
    list: &[u64],
    buffer: &mut [u8],
    used: usize,
    name: &[u8],
) -> Result<usize, Refusal>
    ensures { (x : Reading) × (sound breaker.now list.now ≡ true → Reads buffer.old used x)
        × (save_after (saving_told result) buffer.new
        ≡ saved x name.now breaker.now list.now buffer.old used) }
{
    checkpoints::save(*breaker, list, buffer, used, name)
}

// Comes back to the save of a name: all that was saved, in the next generation, with no trial out.
// Ruled out: one past the saved generation; a present inflight that is kept.
pub fn restore(
    breaker: &mut Breaker,
    list: &mut [u64],
    buffer: &[u8],
    used: usize,
    name: &[u8],
) -> Result<(), Refusal>
    ensures { (x : Reading) × (sound breaker.old list.old ≡ true → Reads buffer.now used x)
        × (after (finished_told result) breaker.new list.new
        ≡ restored x name.now breaker.old list.old) }
{
    *breaker = checkpoints::restore(*breaker, list, buffer, used, name)?;
    Ok(())
}
