// A journal within the limit, from its header to its last line.
ghost use Rattle.std.specs.Prelude.{◌≡◌, true, ◌+◌, ◌*◌, ◌≤◌, length, take};
ghost use Rattle.breaker.specs.Record.{sound};
ghost use Rattle.journal.specs.Replay.{Answers, Kept};
ghost use Rattle.journal.specs.Steps.{Ends};

use crate::header::builder_of;
use crate::step::step;
use crate::write::{write_answer, write_line, write_malformed};
use breaker::Breaker;

// The answers to the calls, and the line of the first that is malformed; `more` says that bytes past the limit follow.
// (A loop over what is left, and no iterator: what is left after the last call is looked at. Record and list stay apart here and in `step`: a
// struct of a sound breaker would have to lend the list.)
fn replay_calls(
    s: &[u8],
    more: bool,
    mut breaker: Breaker,
    list: &mut [u64],
    out: &mut [u8],
) -> usize
    requires s_in_bounds { 23 * length s.now + 149 ≤ length out.old }
    requires list_value { sound breaker list.old ≡ true }
    ensures ends { Ends more breaker list.old s.now (take result out.new) list.new }
    ensures kept { Kept result out.old out.new }
{
    let mut rest = s;
    let mut end: usize = 0;
    let mut line: u64 = 2;
    while let Some((call, after)) = lines::read_call(rest) {
        let made = step(breaker, list, call);
        breaker = made.breaker;
        end = write_answer(out, end, made.answer, breaker);
        rest = after;
        line += 1;
    }
    if rest.is_empty() && !more {
        return end;
    }
    write_malformed(out, end, line)
}

// The header, the breaker that it makes, and the calls.
pub(crate) fn replay_all(s: &[u8], more: bool, list: &mut [u64], out: &mut [u8]) -> usize
    requires s_in_bounds { 23 * length s.now + 149 ≤ length out.old }
    requires list_len { length list.old ≡ 4096 }
    ensures answers { Answers more s.now list.old (take result out.new) list.new }
    ensures kept { Kept result out.old out.new }
{
    let Some((header, rest)) = lines::read_header(s) else {
        return write_malformed(out, 0, 1);
    };
    match breaker::build(list, builder_of(header)) {
        Err(r) => write_line(out, 0, b'E', &[u64::from(r.number())]),
        Ok(made) => replay_calls(rest, more, made, list, out),
    }
}
