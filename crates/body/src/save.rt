// The body of a save: written, judged and read.
ghost use Rattle.std.specs.Prelude.{◌≡◌, ◌==◌, ◌*◌, ◌&&◌, ltb, length};
ghost use Rattle.le_bytes.specs.Bytes.{items_at, put_items};
ghost use Rattle.history.specs.Items.{all_below, are_items, fits, padded};
ghost use Rattle.body.specs.Save.{BodyRead, body_of, Good, is_name, item_width, put_save, Save, size_of};

use crate::record::{put_record, record_at};
use crate::{NAME, OUTCOME, RECORD_END, TIME};
use breaker::{Breaker, items_of, sound_record};
use history::{Items, PLACES, may_have};
use le_bytes::{copy, items_at, put_items};

fn item_width(items: Items) -> usize
    ensures { result ≡ item_width items }
{
    match items {
        Items::Nothing | Items::Outcomes(_) => OUTCOME,
        Items::Times => TIME,
    }
}

// The length of a breaker's body.
// Ruled out: one byte for a time; a body without its name.
#[tactic(auto, using(crate::proofs::Records::record_room))]
pub fn size(b: Breaker) -> usize
    ensures { result ≡ size_of b }
{
    RECORD_END + b.shared.len as usize * item_width(items_of(b.config))
}

// By constant widths, of which the compiler makes one store an item: `item_width` in their place takes five times as long.
fn put_list(out: &mut [u8], kind: Items, items: &[u64])
    ensures { out.new ≡ put_items 86 (item_width kind) items.now out.old }
{
    match kind {
        Items::Nothing | Items::Outcomes(_) => put_items(out, RECORD_END, OUTCOME, items),
        Items::Times => put_items(out, RECORD_END, TIME, items),
    }
}

// Writes the body of a breaker under a name to the front of `out`, if there is room: it cannot fail, since callers have room for any body.
// Ruled out: a list that ends before its last item; one that begins with the record.
pub fn write(out: &mut [u8], name: &[u8], b: Breaker, list: &[u64])
    ensures { out.new ≡ put_save name.now b list.now out.old }
{
    let n = b.shared.len as usize;
    if name.len() == NAME && n <= list.len() && size(b) <= out.len() {
        copy(out, 0, name);
        put_record(out, NAME, b);
        put_list(out, items_of(b.config), &list[..n]);
    }
}

// The bits that any byte has: below a power of two where every byte is. No test ends it early, so the compiler takes many bytes a turn.
fn bits_of(s: &[u8]) -> u8
    ensures ascii { ltb result 128 ≡ all_below 128 s.now }
    ensures outcomes { ltb result 2 ≡ all_below 2 s.now }
{
    s.iter().fold(0, |bits, b| bits | *b)
}

// Whether bytes are a name.
// Ruled out: a name of seven bytes; one with a byte of 128.
pub fn is_name(s: &[u8]) -> bool
    ensures { result ≡ is_name s.now }
{
    s.len() == NAME && bits_of(s) < 128
}

// Whether bytes may be the items of a list: any may be those of a time. They are judged as they lie, without reading the numbers first.
fn are_items(items: Items, s: &[u8]) -> bool
    ensures { result ≡ are_items items s.now }
{
    match items {
        Items::Nothing | Items::Times => true,
        Items::Outcomes(_) => bits_of(s) < 2,
    }
}

// Whether bytes may be a list of this kind and length.
fn is_list(s: &[u8], items: Items, len: u32) -> bool
    ensures { result ≡ (fits items len && (length s.now == len * item_width items && are_items items s.now)) }
{
    may_have(items, len) && s.len() == len as usize * item_width(items) && are_items(items, s)
}

// The breaker that bytes are the body of.
// Ruled out: a name with a byte of 128; an outcome of 2; a list that is cut.
pub fn read(s: &[u8]) -> Option<Breaker>
    ensures { BodyRead s.now result }
{
    if s.len() < RECORD_END || !is_name(&s[..NAME]) {
        return None;
    }
    let b = record_at(s, NAME);
    let is_body = sound_record(b) && is_list(&s[RECORD_END..], items_of(b.config), b.shared.len);
    is_body.then_some(b)
}

// By constant widths, as `put_list` writes: `item_width` in their place takes four times as long.
fn get_list(s: &[u8], kind: Items, items: &mut [u64])
    ensures { items.new ≡ items_at 86 (item_width kind) items.old s.now }
{
    match kind {
        Items::Nothing | Items::Outcomes(_) => items_at(s, RECORD_END, OUTCOME, items),
        Items::Times => items_at(s, RECORD_END, TIME, items),
    }
}

// Puts the list of a save into a storage: every place of it. It cannot fail: callers have read the save, and have a storage.
// Ruled out: a place of the list before that stays; a time of four bytes.
pub fn list_in(s: &[u8], b: Breaker, list: &mut [u64])
    ensures { (x : Save) → Good x → s.now ≡ body_of x → x.breaker ≡ b → length list.old ≡ 4096 → list.new ≡ padded x.items }
{
    let n = b.shared.len as usize;
    if list.len() == PLACES && n <= PLACES {
        list.fill(0);
        get_list(s, items_of(b.config), &mut list[..n]);
    }
}
