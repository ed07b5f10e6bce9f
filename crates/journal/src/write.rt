// Numbers and lines written into a buffer. Each writer answers the place after what it wrote.
// (Buffer and place side by side: of a struct with both, each contract would also have to say that it keeps the same buffer.)
ghost use Rattle.std.specs.Prelude.{◌≡◌, ◌+◌, ◌*◌, ◌≤◌, ◌++◌, [], length};
ghost use Rattle.breaker.specs.Record.{state};
ghost use Rattle.lines.specs.Print.{print_decimal, print_fields, print_line};
ghost use Rattle.journal.specs.Replay.{five, answer_line, malformed_line};
ghost use Rattle.journal.specs.Laid.{laid};
ghost use Rattle.journal.specs.Steps.{step_told};

use breaker::{Breaker, NotAdmitted, Ticket};

// n in decimal. (Not by `write!`, which may fail for want of room: here there is room.)
fn write_decimal(out: &mut [u8], at: usize, n: u64) -> usize
    requires { at + length (print_decimal n) ≤ length out.old }
    ensures value { result ≡ at + length (print_decimal n) }
    ensures out_after { out.new ≡ laid at (print_decimal n) out.old }
{
    if n < 10 {
        out[at] = b'0' + n as u8;
        return at + 1;
    }
    let next = write_decimal(out, at, n / 10);
    out[next] = b'0' + (n % 10) as u8;
    next + 1
}

// A space and a decimal for each value.
fn write_fields(out: &mut [u8], at: usize, values: &[u64]) -> usize
    requires { at + 21 * length values.now ≤ length out.old }
    ensures value { result ≡ at + length (print_fields values.now) }
    ensures out_after { out.new ≡ laid at (print_fields values.now) out.old }
    ensures upper_bound { result ≤ at + 21 * length values.now }
{
    let mut next = at;
    for value in values {
        out[next] = b' ';
        next = write_decimal(out, next + 1, *value);
    }
    next
}

// A letter, values of its own and then more of them, and the line feed.
fn write_parts(out: &mut [u8], at: usize, letter: u8, own: &[u64], more: &[u64]) -> usize
    requires { at + (2 + 21 * (length own.now + length more.now)) ≤ length out.old }
    ensures value { result ≡ at + length (print_line letter (own.now ++ more.now)) }
    ensures out_after { out.new ≡ laid at (print_line letter (own.now ++ more.now)) out.old }
    ensures upper_bound { result ≤ at + (2 + 21 * (length own.now + length more.now)) }
{
    out[at] = letter;
    let next = write_fields(out, at + 1, own);
    let end = write_fields(out, next, more);
    out[end] = b'\n';
    end + 1
}

// A letter, its values and the line feed.
pub(crate) fn write_line(out: &mut [u8], at: usize, letter: u8, values: &[u64]) -> usize
    requires { at + (2 + 21 * length values.now) ≤ length out.old }
    ensures value { result ≡ at + length (print_line letter values.now) }
    ensures out_after { out.new ≡ laid at (print_line letter values.now) out.old }
    ensures upper_bound { result ≤ at + (2 + 21 * length values.now) }
{
    write_parts(out, at, letter, &[], values)
}

// The line that ends a run.
pub(crate) fn write_malformed(out: &mut [u8], at: usize, line: u64) -> usize
    requires { at + 149 ≤ length out.old }
    ensures value { result ≡ at + length (malformed_line line) }
    ensures out_after { out.new ≡ laid at (malformed_line line) out.old }
    ensures upper_bound { result ≤ at + 149 }
{
    write_line(out, at, b'E', &[12, line])
}

// A letter, an answer's own values, then state, generation, inflight, successes and open-until.
fn write_state(out: &mut [u8], at: usize, letter: u8, own: &[u64], breaker: Breaker) -> usize
    requires room { at + 149 ≤ length out.old }
    requires few { length own.now ≤ 2 }
    ensures value { result ≡ at + length (print_line letter (own.now ++ five (state breaker []))) }
    ensures out_after { out.new ≡ laid at (print_line letter (own.now ++ five (state breaker []))) out.old }
    ensures upper_bound { result ≤ at + 149 }
{
    let h = breaker.shared;
    let five = [
        u64::from(h.state),
        h.generation,
        u64::from(h.counts.inflight),
        u64::from(h.counts.successes),
        h.open_until,
    ];
    write_parts(out, at, letter, own, &five)
}

// The line that answers a call.
pub(crate) fn write_answer(
    out: &mut [u8],
    at: usize,
    answer: Result<Option<Ticket>, NotAdmitted>,
    breaker: Breaker,
) -> usize
    requires { at + 149 ≤ length out.old }
    ensures value { result ≡ at + length (answer_line (step_told answer) (state breaker [])) }
    ensures out_after { out.new ≡ laid at (answer_line (step_told answer) (state breaker [])) out.old }
    ensures upper_bound { result ≤ at + 149 }
{
    match answer {
        Ok(Some(t)) => write_state(out, at, b'G', &[t.generation, u64::from(t.probe)], breaker),
        Ok(None) => write_state(out, at, b'N', &[], breaker),
        Err(NotAdmitted::Shed(d)) => write_state(out, at, b'B', &[d.ms], breaker),
        Err(NotAdmitted::Refused(r)) => {
            write_state(out, at, b'E', &[u64::from(r.number())], breaker)
        }
    }
}
