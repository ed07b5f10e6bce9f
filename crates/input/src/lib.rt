// What a program is given, read into a buffer.
#![tactic(auto)]

ghost use Rattle.std.specs.Prelude.{◌≡◌, ◌≤◌, length};
ghost use Rattle.std.specs.Io.{ReadsAtMost};
ghost use Rattle.input.specs.Reading.{brought, Came};

use std::io;
use std::io::Read;

// How many bytes a read brought, or none at the end of the input.
fn brought(got: io::Result<usize>) -> io::Result<Option<usize>>
    ensures { result ≡ brought got }
{
    let bytes = got?;
    if bytes == 0 {
        return Ok(None);
    }
    Ok(Some(bytes))
}

// Reads until the input ends or the buffer is full, and tells how many bytes came. (By hand: `read_exact` does not tell how much came before the end.)
// Ruled out: a count past the buffer; one that stops before the buffer is full, with more to come.
pub fn read_input<R: Read>(input: &mut R, buf: &mut [u8]) -> io::Result<usize>
    ensures { Came (R.remaining input.old) (R.remaining input.new) buf.new result }
{
    let mut n: usize = 0;
    while n < buf.len() {
        let Some(came) = brought(input.read(&mut buf[n..]))? else {
            return Ok(n);
        };
        n += came;
    }
    Ok(n)
}

// Reads until the buffer is full, the input ends or a read fails, and tells how many bytes came.
// Ruled out: a count past the buffer; one that counts a byte too many a read.
pub fn read_full<R: Read>(input: &mut R, buf: &mut [u8]) -> usize
    ensures { result ≤ length buf.new }
{
    let mut full: usize = 0;
    while full < buf.len() {
        let Ok(Some(came)) = brought(input.read(&mut buf[full..])) else {
            return full;
        };
        full += came;
    }
    full
}
