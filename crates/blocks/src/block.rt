// A block: written, checked, judged.
ghost use Rattle.std.specs.Prelude.{◌≡◌, ◌+◌, ◌≤◌, length, take, drop};
ghost use Rattle.le_bytes.specs.Bytes.{number};
ghost use Rattle.blocks.specs.Block.{block, judged_block, may_hold, proper, summed, sum_from, used_body, used_in, versioned};

use crate::{BLOCK, BODY, BODY_AT, SUM_AT, SUM_OVER, VERSION};
use error::Refusal;
use le_bytes::{copy, number_at, put_items, put_number};

// The sum of byte × (position + 1).
fn weighed(s: &[u8]) -> u32
    requires { length s.now ≤ 504 }
    ensures { result ≡ sum_from 0 s.now }
{
    let mut sum = 0;
    for (i, b) in s.iter().enumerate() {
        sum += u32::from(*b) * (i as u32 + 1);
    }
    sum
}

// A number of the header: two bytes.
pub(crate) fn header(b: &[u8; BLOCK], at: usize) -> u16
    requires { at ≤ 6 }
    ensures { result ≡ number (take 2 (drop at b.now)) }
{
    u16::from_le_bytes([b[at], b[at + 1]])
}

// A block with a part of a body. It is written in its place, since one that is returned is copied twice; into a slice, since no proof closes of
// what the run's bytes end as where an array is lent out of them (`as_mut_array`).
pub(crate) fn write_block(out: &mut [u8], version: u16, index: u16, count: u16, part: &[u8])
    requires { (length out.old ≡ 512) × (length part.now ≤ 496) }
    ensures { out.new ≡ block version index count part.now }
{
    let used = part.len();
    let header = [
        u64::from(version),
        u64::from(index),
        u64::from(count),
        used as u64,
    ];
    put_items(out, 0, 2, &header);
    copy(out, BODY_AT, part);
    out[BODY_AT + used..SUM_AT].fill(0);
    let sum = weighed(&out[..SUM_OVER]);
    put_number(out, SUM_AT, 4, u64::from(sum));
}

// Whether the block may hold so many bytes: none is empty, and none but the last is part full.
#[tactic(auto, unfolding(crate::specs::Block::may_hold))]
fn may_hold(index: u16, count: u16, used: usize) -> bool
    ensures { result ≡ may_hold index count used }
{
    index < count && 0 < used && used <= BODY && (used == BODY || index + 1 == count)
}

pub(crate) fn sum_right(b: &[u8; BLOCK]) -> bool
    ensures { result ≡ summed b.now }
{
    number_at(b, SUM_AT, 4) == u64::from(weighed(&b[..SUM_OVER]))
}

// Whether the version is known.
pub(crate) fn version_right(b: &[u8; BLOCK]) -> bool
    ensures { result ≡ versioned b.now }
{
    header(b, 0) == VERSION
}

// Whether header and zeros are those of a block.
pub(crate) fn is_proper(b: &[u8; BLOCK]) -> bool
    ensures { result ≡ proper b.now }
{
    let used = usize::from(header(b, 6));
    may_hold(header(b, 2), header(b, 4), used) && b[BODY_AT + used..SUM_AT].iter().all(|x| *x == 0)
}

// What the check meets, as `judge`, with the used length where nothing is met.
// Ruled out: the count of the run told as the length; a length told of a block whose sum is wrong.
pub fn checked(b: &[u8]) -> Result<usize, Refusal>
    ensures { result ≡ judged_block Err (Ok (used_in b.now)) b.now }
{
    let block = b.as_array().ok_or(Refusal::Damaged)?;
    if !sum_right(block) {
        return Err(Refusal::Damaged);
    }
    if !version_right(block) {
        return Err(Refusal::Version);
    }
    if !is_proper(block) {
        return Err(Refusal::Damaged);
    }
    Ok(usize::from(header(block, 6)))
}

// What the check of a block by itself meets: 13, 14, 13, or nothing.
// Ruled out: a version tested before the sum; a byte of 504 to 507 that is let pass.
pub fn judge(b: &[u8]) -> Result<(), Refusal>
    ensures { result ≡ judged_block Err (Ok tt) b.now }
{
    checked(b)?;
    Ok(())
}

// The used body of a block, as a part of it; empty where the check does not pass: it cannot fail, and `checked` tells the refusal.
// Ruled out: one byte more than is used; the body of a block whose sum is wrong.
pub fn check(b: &[u8]) -> &[u8]
    ensures { result.now ≡ used_body b.now }
{
    match checked(b) {
        Ok(used) => &b[BODY_AT..BODY_AT + used],
        Err(_) => &b[..0],
    }
}
