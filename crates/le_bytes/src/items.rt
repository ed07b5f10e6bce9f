// Many bytes at once: numbers of one width, a copy.
ghost use Rattle.std.specs.Prelude.{◌≡◌, ◌*◌, ◌≤◌, length, replicate};
ghost use Rattle.le_bytes.specs.Bytes.{encoded, decoded, put_at, put_items, items_at};

use crate::numbers::{end_within, read, write};

// By what is left: a width of 0 is allowed, and `chunks_exact` takes none.
fn read_items(s: &[u8], width: usize, out: &mut [u64])
    requires { (width ≤ 8) × (length s.now ≡ length out.old * width) }
    ensures { out.new ≡ decoded (replicate (length out.old) width) s.now }
{
    let mut rest = s;
    for n in out {
        let (bytes, more) = rest.split_at(width);
        *n = read(bytes);
        rest = more;
    }
}

// By place: std does not say what a slice ends as once its chunks were lent.
fn write_items(out: &mut [u8], width: usize, values: &[u64])
    requires { length out.old ≡ length values.now * width }
    ensures { out.new ≡ encoded (replicate (length values.now) width) values.now }
{
    for (i, n) in values.iter().enumerate() {
        let at = i * width;
        write(&mut out[at..at + width], *n);
    }
}

// As many numbers of `width` bytes at `at` as `out` holds.
// Ruled out: a number that begins in the one before; one left out at the end.
#[tactic(auto, using(crate::proofs::Widths::sizes))]
pub fn items_at(s: &[u8], at: usize, width: usize, out: &mut [u64])
    ensures { out.new ≡ items_at at width out.old s.now }
{
    if width <= 8
        && let Some(end) = end_within(at, out.len() * width, s.len())
    {
        read_items(&s[at..end], width, out);
    }
}

// Puts numbers of `width` bytes at `at`.
// Ruled out: a byte past them that is cleared; the last number left out.
#[tactic(auto, using(crate::proofs::Widths::sizes))]
pub fn put_items(out: &mut [u8], at: usize, width: usize, values: &[u64])
    ensures { out.new ≡ put_items at width values.now out.old }
{
    if width <= 8
        && let Some(end) = end_within(at, values.len() * width, out.len())
    {
        write_items(&mut out[at..end], width, values);
    }
}

// Copies bytes to `at`.
// Ruled out: a copy that stops before the last byte; one that begins at 0.
pub fn copy(out: &mut [u8], at: usize, from: &[u8])
    ensures { out.new ≡ put_at at from.now out.old }
{
    if let Some(end) = end_within(at, from.len(), out.len()) {
        out[at..end].copy_from_slice(from);
    }
}
