// All blocks of bytes, and one test over them.
ghost use Rattle.std.specs.Prelude.{◌≡◌, ◌/◌, length};
ghost use Rattle.std.specs.Simd.{first_chunks};
ghost use Rattle.blocks.specs.Block.{summed, versioned};
ghost use Rattle.blocks.specs.Run.{every};

use crate::BLOCK;
use crate::block::{sum_right, version_right};

// The whole blocks.
pub(crate) fn blocks_of(s: &[u8]) -> &[[u8; BLOCK]]
    ensures { result.now ≡ first_chunks 512 (length s.now / 512) s.now }
{
    s.as_chunks().0
}

// Whether the sum of every block is right.
// Ruled out: one that leaves out the last block; one that sums 503 positions.
pub fn all_summed(s: &[u8]) -> bool
    ensures { result ≡ every summed (length s.now / 512) s.now }
{
    blocks_of(s).iter().all(|b| sum_right(b))
}

// Whether the version of every block is known.
// Ruled out: one that looks at the first block alone; one that takes version 0.
pub fn all_versioned(s: &[u8]) -> bool
    ensures { result ≡ every versioned (length s.now / 512) s.now }
{
    blocks_of(s).iter().all(|b| version_right(b))
}
