// The calls of the sample by value.
use crate::columns as at;
use crate::lines::Line;
use crate::record::{low_byte, low_word};
use crate::world::LIST;
use breaker::Breaker;
use crossing::{Setting, Tell, Told};
use error::Refusal;
use std::num::f64_from_bits_with_nan;

// What a call told, and the record after it.
#[derive(Clone, Copy)]
pub(crate) struct Called {
    pub(crate) told: Told,
    pub(crate) breaker: Breaker,
}

// The most bytes of a name that the sample asks for.
pub(crate) const LONGEST_NAME: usize = 16;

// As many of them as there are, to before `end`.
fn part<T>(s: &[T], from: usize, end: usize) -> &[T] {
    let end = end.min(s.len());
    &s[from.min(end)..end]
}

fn part_mut<T>(s: &mut [T], from: usize, end: usize) -> &mut [T] {
    let end = end.min(s.len());
    &mut s[from.min(end)..end]
}

// The setting of a reconfigure.
fn setting(n: &Line) -> Setting {
    Setting {
        kind: low_byte(n[at::SETTING]),
        limit: low_word(n[at::SETTING + 1]),
        ratio: f64_from_bits_with_nan(n[at::SETTING + 2]),
        min_calls: low_word(n[at::SETTING + 3]),
        period_secs: n[at::SETTING + 4],
        period_nanos: low_word(n[at::SETTING + 5]),
        cooldown_secs: n[at::SETTING + 6],
        cooldown_nanos: low_word(n[at::SETTING + 7]),
        trials: low_word(n[at::SETTING + 8]),
        required: low_word(n[at::SETTING + 9]),
    }
}

// A refused call leaves the record.
fn finished(breaker: Breaker, answer: Result<Breaker, Refusal>) -> Called {
    match answer {
        Ok(breaker) => Called {
            told: ().tell(),
            breaker,
        },
        Err(refusal) => Called {
            told: refusal.tell(),
            breaker,
        },
    }
}

fn reconfigure(breaker: Breaker, list: &mut [u64], setting: Setting) -> Called {
    match crossing::known_builder(setting) {
        Some(builder) => finished(breaker, circuit::reconfigure(breaker, list, builder)),
        None => Called {
            told: crossing::tell_unknown_policy(list),
            breaker,
        },
    }
}

// The check of a part of the buffer.
fn check(breaker: Breaker, bytes: &[u8], from: usize, size: usize) -> Called {
    let block = part(bytes, from, from.wrapping_add(size));
    Called {
        told: crossing::tell_judged(blocks::checked(block)),
        breaker,
    }
}

// The bytes of the name that is asked for, and others behind them.
fn name(n: &Line) -> [u8; LONGEST_NAME] {
    let mut out = [0; LONGEST_NAME];
    for (byte, number) in out.iter_mut().zip(&n[at::NAME..]) {
        *byte = low_byte(*number);
    }
    out
}

// The save or the restore of a line, with the name that it asks for, and as many bytes as it hands in.
fn with_name(breaker: Breaker, list: &mut [u64], bytes: &mut [u8], n: &Line) -> Called {
    let asked = name(n);
    let name = part(&asked, 0, n[at::NAME_SIZE] as usize);
    let buffer = part_mut(bytes, 0, n[at::SIZE] as usize);
    let used = n[at::USED] as usize;
    match n[at::KIND] {
        at::SAVE => Called {
            told: checkpoints::save(breaker, list, buffer, used, name).tell(),
            breaker,
        },
        _ => finished(
            breaker,
            checkpoints::restore(breaker, list, buffer, used, name),
        ),
    }
}

// The call of a line. One on a breaker is handed as many places as the line says.
pub(crate) fn call(breaker: Breaker, w: &mut [u64], bytes: &mut [u8], n: &Line) -> Called {
    if n[at::KIND] == at::CHECK {
        return check(
            breaker,
            bytes,
            n[at::PART_AT] as usize,
            n[at::PART_SIZE] as usize,
        );
    }
    let list = part_mut(w, LIST, LIST.wrapping_add(n[at::PLACES] as usize));
    match n[at::KIND] {
        at::RECONFIGURE => reconfigure(breaker, list, setting(n)),
        _ => with_name(breaker, list, bytes, n),
    }
}
