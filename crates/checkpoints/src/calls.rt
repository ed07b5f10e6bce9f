// Saving a breaker under a name, and coming back to it. A call that is refused leaves all as it was. Buffer, used length and name stay three
// parameters: C hands them apart, and each call tests them anew. The clause over a `Reading` stands whole at each level, here and above, so that
// its reader sees all of it.
ghost use Rattle.std.specs.Prelude.{◌≡◌, true, List, ◌++◌, ℕ, ◌≤◌, length};
ghost use Rattle.history.specs.Items.{padded};
ghost use Rattle.breaker.specs.Record.{sound, state};
ghost use Rattle.breaker.specs.Rules.{done, returned};
ghost use Rattle.breaker.specs.Calls.{done_by_value, kept};
ghost use Rattle.blocks.specs.Run.{run_of, Summed};
ghost use Rattle.body.specs.Save.{body_of, Good, Save};
ghost use Rattle.saves.specs.Buffer.{Reading, Reads};
ghost use Rattle.checkpoints.specs.Calls.{restored, save_after, saved, saved_in, saved_new, saving_told};

use crate::room;
use blocks::{BLOCK, VERSION, count_of, join, run_at, write_run};
use body::{is_name, list_in, read, size, write};
use breaker::{Breaker, test};
use error::Refusal;
use saves::{ROOM, look};

// A name that is not there: its blocks at the used length, if they fit. (Record and list stay apart: a struct of a sound breaker would have to
// lend the list.)
fn save_new(
    breaker: Breaker,
    list: &[u64],
    buffer: &mut [u8],
    used: usize,
    name: &[u8],
) -> Result<usize, Refusal>
    requires { (sound breaker list.now ≡ true) × (used ≤ length buffer.old) × (length buffer.old ≤ 65536) }
    ensures { save_after (saving_told result) buffer.new ≡ saved_new name.now breaker list.now buffer.old used }
{
    if !is_name(name) {
        return Err(Refusal::Name);
    }
    let long = size(breaker);
    let blocks = BLOCK * count_of(long);
    if buffer.len() - used < blocks {
        return Err(Refusal::Name);
    }
    let mut body = room();
    write(&mut body, name, breaker, list);
    write_run(buffer, used, VERSION, &body[..long]);
    Ok(used + blocks)
}

// Saves a breaker under a name at the used length of a buffer, and answers the used length after it.
// Ruled out: a save that writes past its run; a name that is there twice.
pub fn save(
    breaker: Breaker,
    list: &[u64],
    buffer: &mut [u8],
    used: usize,
    name: &[u8],
) -> Result<usize, Refusal>
    ensures { (x : Reading) × (sound breaker list.now ≡ true → Reads buffer.old used x)
        × (save_after (saving_told result) buffer.new ≡ saved x name.now breaker list.now buffer.old used) }
{
    test(breaker, list)?;
    match look(buffer, used, name)? {
        Some(_) => Err(Refusal::Name),
        None => save_new(breaker, list, buffer, used, name),
    }
}

// The save at the front of blocks whose sums are right, put in force. It is read as saves' `save_at` reads it, which keeps no more than a name
// and a size. Where none stands, which a look rules out, all is left.
fn come_back(breaker: Breaker, list: &mut [u64], s: &[u8]) -> Result<Breaker, Refusal>
    requires { Summed s.now }
    ensures { (x : Save) (rest : List ℕ) → Good x → s.now ≡ run_of 1 (body_of x) ++ rest → length list.old ≡ 4096
        → done_by_value result breaker list.new
        ≡ kept x.breaker.config (done (returned breaker.shared.generation (state x.breaker (padded x.items)))) }
{
    let Some(run) = run_at(s) else {
        return Err(Refusal::Damaged);
    };
    if ROOM < run.size {
        return Err(Refusal::Damaged);
    }
    let mut body = room();
    join(s, run.size, &mut body);
    let Some(saved) = read(&body[..run.size]) else {
        return Err(Refusal::Damaged);
    };
    list_in(&body[..run.size], saved, list);
    Ok(steps::returned(saved, breaker.shared.generation))
}

// Comes back to the save of a name: all that was saved, in the next generation, with no trial out.
// Ruled out: one past the saved generation; a present inflight that is kept.
pub fn restore(
    breaker: Breaker,
    list: &mut [u64],
    buffer: &[u8],
    used: usize,
    name: &[u8],
) -> Result<Breaker, Refusal>
    ensures { (x : Reading) × (sound breaker list.old ≡ true → Reads buffer.now used x)
        × (done_by_value result breaker list.new ≡ restored x name.now breaker list.old) }
{
    test(breaker, list)?;
    let Some(place) = look(buffer, used, name)? else {
        return Err(Refusal::Name);
    };
    if used < place {
        return Err(Refusal::Damaged);
    }
    come_back(breaker, list, &buffer[place..used])
}
