// What a buffer holds, in three passes over all its used blocks, and where the asked name is.
ghost use Rattle.std.specs.Prelude.{◌≡◌, true, List, ℕ, ◌≤◌, length};
ghost use Rattle.le_bytes.specs.Bytes.{number};
ghost use Rattle.blocks.specs.Run.{Summed};
ghost use Rattle.body.specs.Save.{is_name};
ghost use Rattle.saves.specs.Buffer.{framed, same_bytes};
ghost use Rattle.saves.specs.Look.{LookedAs, SizeFits, StandsAs, WalkedAs, is_asked};

use crate::{MOST_SAVES, ROOM, Stands};
use blocks::{BLOCK, LARGEST, Run, VERSION, all_summed, all_versioned, count_of, join, run_at};
use body::{NAME, is_name, read};
use error::Refusal;
use le_bytes::number_at;

#[tactic(auto, unfolding(crate::specs::Buffer::framed))]
fn is_framed(size: usize, used: usize) -> bool
    ensures { result ≡ framed size used }
{
    size <= LARGEST && used <= size && size % BLOCK == 0 && used % BLOCK == 0
}

// The number of the asked name, where it is one.
fn asked_number(name: &[u8]) -> Option<u64>
    ensures { (n : List ℕ) → is_name n ≡ true → is_asked result (number n) ≡ same_bytes name.now n }
{
    is_name(name).then(|| number_at(name, 0, NAME))
}

// What stands at the front of blocks whose sums are right. `body` is room for a body.
fn save_at(s: &[u8], body: &mut [u8; ROOM]) -> Option<Stands>
    requires { Summed s.now }
    ensures { SizeFits result × StandsAs s.now result }
{
    let Run { version, size } = run_at(s)?;
    if version != VERSION || ROOM < size {
        return None;
    }
    join(s, size, body);
    let part = &body[..size];
    read(part)?;
    Some(Stands {
        name: number_at(part, 0, NAME),
        size,
    })
}

// The place of the asked name among the saves of blocks whose sums are right, if it is there; 13 where they are no saves. `body` is room for a body.
fn walk(s: &[u8], asked: Option<u64>, body: &mut [u8; ROOM]) -> Result<Option<usize>, Refusal>
    requires { (length s.now ≤ 65536) × Summed s.now }
    ensures { WalkedAs s.now asked result }
{
    // no heap here: an array, and how many of its places are taken
    let mut names = [0; MOST_SAVES];
    let mut count = 0;
    let mut at = 0;
    let mut place = None;
    // by places, and not by what is left: a place is the answer
    while at < s.len() {
        let Stands { name, size } = save_at(&s[at..], body).ok_or(Refusal::Damaged)?;
        if names[..count].contains(&name) {
            return Err(Refusal::Damaged);
        }
        if asked == Some(name) {
            place = Some(at);
        }
        names[count] = name;
        count += 1;
        at += BLOCK * count_of(size);
    }
    Ok(place)
}

// What a buffer holds, and where the asked name is: refused with 13, 14 and 13, each over all used blocks.
// C hands buffer, used length and name apart, and each call tests them anew, so they stay three parameters.
// Ruled out: a version tested before the last sum; a name that is there twice and let pass.
pub fn look(buffer: &[u8], used: usize, name: &[u8]) -> Result<Option<usize>, Refusal>
    ensures { LookedAs buffer.now used name.now result }
{
    if !is_framed(buffer.len(), used) {
        return Err(Refusal::Damaged);
    }
    let s = &buffer[..used];
    if !all_summed(s) {
        return Err(Refusal::Damaged);
    }
    if !all_versioned(s) {
        return Err(Refusal::Version);
    }
    let mut body = [0; ROOM];
    walk(s, asked_number(name), &mut body)
}
