// One line of the sample: put in force, or called and compared with what it expects.
ghost use Rattle.std.specs.Prelude.{◌≤◌};

use crate::calls::{LONGEST_NAME, call};
use crate::columns as at;
use crate::lines::Line;
use crate::record::{keep, record_in};
use crate::tallies::{LINES, tally, tally_difference, tally_told};
use crate::world::{Bytes, DUE, LIST, RECORD, SHARED, TOLD, WANT, World, copy, put, unpack};
use history::PLACES;

// A number as a field or a place holds it.
fn cut(spot: u64, value: u64) -> u64 {
    match spot {
        0 | 8 => value % 0x100,
        1 | 3 | 6 | 7 | 10..=13 | 15 => value % 0x1_0000_0000,
        _ => value,
    }
}

// Puts a number into our field or place, and into the expected one.
fn put_spot(w: &mut World, spot: u64, value: u64) {
    let at = RECORD.wrapping_add(spot as usize);
    let value = cut(spot, value);
    put(w, at, value);
    put(w, WANT.wrapping_add(at), value);
}

// Puts a line's words into our buffer and into the expected one.
fn put_bytes(b: &mut Bytes, at: usize, size: usize, n: &Line, pairs: usize) {
    let end = at.wrapping_add(size);
    unpack(b, at, end, n, pairs);
    unpack(b, DUE.wrapping_add(at), DUE.wrapping_add(end), n, pairs);
}

// Puts what a line hands in in force. What a state's line lacks of the storage is 0.
fn set(w: &mut World, b: &mut Bytes, n: &Line) {
    match n[at::KIND] {
        at::FRESH => {
            copy(&mut w[RECORD..SHARED], &n[at::CONFIG..]);
            copy(&mut w[WANT + RECORD..WANT + SHARED], &n[at::CONFIG..]);
        }
        at::START => {
            copy(&mut w[SHARED..LIST + PLACES], &n[at::STATE..]);
            copy(&mut w[WANT + SHARED..WANT + LIST + PLACES], &n[at::STATE..]);
        }
        at::SPOT => put_spot(w, n[at::SPOT_AT], n[at::SPOT_VALUE]),
        at::BUFFER => put_bytes(b, 0, n[at::BUFFER_SIZE] as usize, n, at::BUFFER_WORDS),
        at::PATCH => {
            let size = n[at::PART_SIZE] as usize;
            put_bytes(b, n[at::PART_AT] as usize, size, n, at::PATCH_WORDS);
        }
        _ => {}
    }
}

// Makes the call of a line.
fn make(w: &mut World, b: &mut Bytes, n: &Line) {
    let called = call(record_in(w), w, b, n);
    keep(w, called.told, called.breaker);
}

// Where a call's line says what is told.
fn told_at(kind: u64, name_size: u64) -> usize
    ensures { result ≤ 21 }
{
    match kind {
        at::RECONFIGURE => at::RECONFIGURE_TOLD,
        at::CHECK => at::CHECK_TOLD,
        _ => at::NAME + LONGEST_NAME.min(name_size as usize),
    }
}

// What a call that is told 0 is expected to leave: a save its blocks at the used length, a restore and a reconfigure the record and the list
// that stand behind the answer, and zeros behind the list. Answers whether the line has just the words for it.
fn expect_left(w: &mut World, b: &mut Bytes, n: &Line, used: u64, left: usize) -> bool {
    match n[at::KIND] {
        at::SAVE => {
            let from = DUE.wrapping_add(n[at::USED] as usize);
            unpack(b, from, DUE.wrapping_add(used as usize), n, left)
        }
        at::CHECK => true,
        _ => {
            copy(
                &mut w[WANT + RECORD..WANT + LIST + PLACES],
                n.get(left..).unwrap_or(&[]),
            );
            true
        }
    }
}

// What a line's call is expected to tell and to leave: a refused one leaves all.
fn expect(w: &mut World, b: &mut Bytes, n: &Line) -> bool {
    let told = told_at(n[at::KIND], n[at::NAME_SIZE]);
    copy(&mut w[WANT + TOLD..WANT + RECORD], &n[told..]);
    n[told] != 0 || expect_left(w, b, n, n[told + 1], told + RECORD)
}

// Whether the numbers told, the whole record, every place and every byte are as expected.
fn agree(w: &World, b: &Bytes) -> bool {
    w[..WANT] == w[WANT..2 * WANT] && b[..DUE] == b[DUE..]
}

// Makes the call of a line and compares.
fn replay_call(w: &mut World, b: &mut Bytes, n: &Line) {
    make(w, b, n);
    tally_told(w, n[at::KIND]);
    if !expect(w, b, n) || !agree(w, b) {
        tally_difference(w);
    }
}

pub(crate) fn replay(w: &mut World, b: &mut Bytes, n: &Line) {
    tally(w, LINES);
    if n[at::KIND] < at::SAVE {
        set(w, b, n);
    } else {
        replay_call(w, b, n);
    }
}
