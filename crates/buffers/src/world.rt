// All numbers and bytes of the program: ours, those that the sample expects, and the counts.
use crate::lines::Line;
use history::PLACES;

// What the last call told us, our record in document 01's order, our storage, and 8 places behind it that no call may touch.
// From WANT on the same as it is expected, and the counts behind it.
pub(crate) type World = [u64; 8320];

pub(crate) const TOLD: usize = 0;

pub(crate) const RECORD: usize = 4;

// the record from the state on
pub(crate) const SHARED: usize = 12;

pub(crate) const LIST: usize = 20;

const UNTOUCHED: usize = LIST + PLACES;

pub(crate) const WANT: usize = 4124;

pub(crate) const COUNTS: usize = 8248;

// What stands in the places that no call may touch.
const MARK: u64 = 0x5a5a_5a5a_5a5a_5a5a;

// A buffer of 65,536 bytes with two blocks behind it, and from DUE on the same as it is expected.
pub(crate) type Bytes = [u8; 133120];

pub(crate) const DUE: usize = 66560;

// All 0 but the places behind our storage and behind the expected one.
pub(crate) fn world() -> World {
    let mut w = [0; 8320];
    w[UNTOUCHED..WANT].fill(MARK);
    w[WANT + UNTOUCHED..COUNTS].fill(MARK);
    w
}

pub(crate) fn bytes() -> Bytes {
    [0; 133120]
}

pub(crate) fn put(w: &mut World, at: usize, value: u64) {
    if let Some(place) = w.get_mut(at) {
        *place = value;
    }
}

// The number at a place, or 0 where there is none.
fn item(n: &[u64], at: usize) -> u64 {
    n.get(at).copied().unwrap_or(0)
}

// Puts numbers into places, as far as there are both.
pub(crate) fn copy(places: &mut [u64], n: &[u64]) {
    for (place, number) in places.iter_mut().zip(n) {
        *place = *number;
    }
}

// Puts the bytes of a word, the lowest first.
fn put_word(bytes: &mut [u8], word: u64) {
    for (byte, of_word) in bytes.iter_mut().zip(word.to_le_bytes()) {
        *byte = of_word;
    }
}

// Puts words into the bytes from `at` to before `end`. In the line each stands behind how often it comes in a row, from `pairs` on.
// Answers whether the line has just as many words as that takes.
pub(crate) fn unpack(b: &mut Bytes, at: usize, end: usize, n: &Line, pairs: usize) -> bool {
    let mut pair = pairs;
    let mut left = item(n, pair);
    let last = end.min(b.len());
    if let Some(part) = b.get_mut(at..last) {
        for bytes in part.chunks_mut(8) {
            put_word(bytes, item(n, pair.wrapping_add(1)));
            left = left.wrapping_sub(1);
            if left == 0 {
                pair = pair.wrapping_add(2);
                left = item(n, pair);
            }
        }
    }
    left == 0
}
