// A run of blocks: written, found, and its body joined.
ghost use Rattle.std.specs.Prelude.{◌≡◌, true, ◌*◌, ◌≤◌, length};
ghost use Rattle.std.specs.Option.{IfSome};
ghost use Rattle.blocks.specs.Block.{summed};
ghost use Rattle.blocks.specs.Run.{body_in, count_of, Finds, put_body, put_run, run_of, Summed, UsedIn};

use crate::block::{header, is_proper, write_block};
use crate::passes::blocks_of;
use crate::{BLOCK, BODY, BODY_AT, LONGEST_BODY, MOST_BLOCKS, Run};

// How many blocks a body of so many bytes takes.
// Ruled out: a block more for a body that fills its last; one less for one that does not.
pub fn count_of(size: usize) -> usize
    ensures { result ≡ count_of size }
{
    size.div_ceil(BODY)
}

// By place: std does not say what a slice ends as once its chunks were lent.
fn write_blocks(out: &mut [u8], version: u16, body: &[u8])
    requires { (length out.old ≡ 512 * count_of (length body.now)) × (length body.now ≤ 63488) }
    ensures { out.new ≡ run_of version body.now }
{
    let count = count_of(body.len()) as u16;
    for (i, part) in body.chunks(BODY).enumerate() {
        let at = i * BLOCK;
        write_block(&mut out[at..at + BLOCK], version, i as u16, count, part);
    }
}

// Puts the run of a body at `at`, if the body is one and there is room for it: it cannot fail, since callers have tested both.
// Ruled out: a run that goes on past its last block; an index that starts at 1.
#[tactic(auto, using(crate::proofs::Joins::length_run))]
pub fn write_run(out: &mut [u8], at: usize, version: u16, body: &[u8])
    ensures { out.new ≡ put_run at version body.now out.old }
{
    if body.len() <= LONGEST_BODY
        && let Some(end) = at.checked_add(BLOCK * count_of(body.len()))
        && end <= out.len()
    {
        write_blocks(&mut out[at..end], version, body);
    }
}

// The used length of a block of this version, index and count whose sum is right, if it is one.
fn used_in(b: &[u8; BLOCK], version: u16, index: u16, count: u16) -> Option<usize>
    ensures most { IfSome result (λ used. used ≤ 496) }
    ensures found { summed b.now ≡ true → UsedIn b.now version index count result }
{
    if header(b, 0) == version && header(b, 2) == index && header(b, 4) == count && is_proper(b) {
        Some(usize::from(header(b, 6)))
    } else {
        None
    }
}

// What stands at the front of blocks whose sums are right.
// Ruled out: a run that is cut off; a part-full block in the middle.
pub fn run_at(s: &[u8]) -> Option<Run>
    ensures { Summed s.now → Finds s.now result }
{
    let blocks = blocks_of(s);
    let first = blocks.first()?;
    let version = header(first, 0);
    let count = header(first, 4);
    if count < 1 || MOST_BLOCKS < count {
        return None;
    }
    let run = blocks.get(..usize::from(count))?;
    let mut size = 0;
    for (i, b) in run.iter().enumerate() {
        size += used_in(b, version, i as u16, count)?;
    }
    Some(Run { version, size })
}

// By place, as the blocks are written.
fn join_parts(s: &[u8], out: &mut [u8])
    requires { (length out.old ≤ 63488) × (512 * count_of (length out.old) ≤ length s.now) }
    ensures { out.new ≡ body_in (length out.old) s.now }
{
    let size = out.len();
    for (i, b) in blocks_of(s)[..count_of(size)].iter().enumerate() {
        let at = i * BODY;
        let end = size.min(at + BODY);
        out[at..end].copy_from_slice(&b[BODY_AT..BODY_AT + (end - at)]);
    }
}

// Joins the body of a run of so many body bytes at the front of `out`, if they are there and `out` has room for them: it cannot fail either.
// Ruled out: the header of a block taken for body; a byte written past the body.
pub fn join(s: &[u8], size: usize, out: &mut [u8])
    ensures { out.new ≡ put_body size s.now out.old }
{
    if size <= LONGEST_BODY && size <= out.len() && BLOCK * count_of(size) <= s.len() {
        join_parts(s, &mut out[..size]);
    }
}
