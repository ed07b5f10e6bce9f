// The list of a breaker in lent storage: 4,096 places, oldest first from place 0, 0 past the length (the VecDeques of the Rust).
// The length stands apart from its storage: it is a field of the record that C holds, and the storage is lent beside it.
// It knows nothing of breakers. No function relies on a sound list: each says what it makes of any storage.
// One that changes the list answers its new length, or a refusal that left every place as it was.
#![tactic(auto)]

ghost use Rattle.std.specs.Prelude.{◌≡◌, ℕ, ◌+◌, ◌-◌, ◌%◌, ◌^◌, ◌<◌, ◌≤◌, [], ◌∷◌, ◌++◌, length, take, drop, nat_lt, IfOk, IfErr};
ghost use Rattle.std.specs.List.{FoldsTo, prefix_len};
ghost use Rattle.history.specs.Items.{view, all_below, are_items, fits, sound_list, item_sum, recent, evicted, cutoff_of};
ghost use Rattle.history.specs.Change.{Left, left, laid, told, on_list, refuse, replaced, cleared};

use error::Refusal;

// The places of the storage. It is a slice tested at each entry, and no array or type of its own, since C lends any length.
pub const PLACES: usize = 4096;

// As many items as there are places.
pub const MOST_ITEMS: u32 = PLACES as u32;

// What the list of a breaker holds, by its policy.
#[derive(Clone, Copy)]
pub enum Items {
    // Consecutive: always empty
    Nothing,
    // Ratio: the newest outcomes, 1 failed and 0 good, at most so many
    Outcomes(u32),
    // Windowed: readings of failures
    Times,
}

// The elements folded in turn.
fn in_turn<F: Fn(u64, u64) -> u64>(s: &[u64], start: u64, step: &F) -> u64
    requires { F.IsAlwaysCallable step.now }
    ensures { FoldsTo (λ a x b. F.post step.now a x b) start s.now result }
{
    s.iter().fold(start, |all, x| step(all, *x))
}

// The items from place `first` on folded in turn. From the next even place on they are read in pairs that no cache line divides, and
// in blocks whose length the compiler knows: it then needs no loop within them.
fn fold_from<F: Fn(u64, u64) -> u64>(list: &[u64], first: usize, step: F) -> u64
    requires { F.IsAlwaysCallable step }
    ensures { FoldsTo (λ a x b. F.post step a x b) 0 (drop first list.now) result }
{
    let from = first.min(list.len());
    let odd = (from % 2).min(list.len() - from);
    let (front, rest) = list[from..].split_at(odd);
    let (blocks, tail) = rest.as_chunks::<32>();
    let mut all = in_turn(front, 0, &step);
    for block in blocks {
        all = in_turn(block, all, &step);
    }
    in_turn(tail, all, &step)
}

// The bits that any item from place `first` on has: below a power of two where every item is.
fn any_bits(list: &[u64], first: usize) -> u64
    ensures { (k : ℕ) → nat_lt result (2 ^ k) ≡ all_below (2 ^ k) (drop first list.now) }
{
    fold_from(list, first, |bits, x| bits | x)
}

// Whether a list of the kind may have this length.
// Ruled out: a window of 4,097 places; a list of Consecutive that is not empty.
pub fn may_have(items: Items, len: u32) -> bool
    ensures { result ≡ fits items len }
{
    match items {
        Items::Nothing => len == 0,
        Items::Outcomes(window) => (1..=MOST_ITEMS).contains(&window) && len <= window,
        Items::Times => len <= MOST_ITEMS,
    }
}

// Whether the elements are items of the kind.
fn are_items(s: &[u64], items: Items) -> bool
    ensures { result ≡ are_items items s.now }
{
    match items {
        Items::Outcomes(_) => any_bits(s, 0) < 2,
        Items::Nothing | Items::Times => true,
    }
}

// Whether the storage with this length holds a sound list of the kind, in one pass over it.
// Ruled out: a scan that skips the last place; an outcome of 2 taken for sound.
pub fn sound_list(list: &[u64], len: u32, items: Items) -> bool
    ensures { result ≡ sound_list items len list.now }
{
    let n = len as usize;
    list.len() == PLACES
        && may_have(items, len)
        && any_bits(list, n) == 0
        && are_items(&list[..n], items)
}

// The list that lies in the storage, of which there is no more than the storage.
fn view(list: &[u64], len: u32) -> &[u64]
    ensures value { result.now ≡ view len list.now }
    ensures within { length result.now ≤ len }
{
    &list[..(len as usize).min(list.len())]
}

// How many outcomes of the list failed, from place `first` on: the sum of zeros and ones. Of other numbers the sum wraps.
// Ruled out: a count that stops before the newest outcome; one that counts the outcomes before `first`.
pub fn count_failures(list: &[u64], first: u32, len: u32) -> u64
    ensures { result ≡ item_sum (drop first (view len list.now)) % 2 ^ 64 }
{
    let outcomes = view(list, len);
    fold_from(outcomes, first as usize, |sum, x| sum.wrapping_add(x))
}

// The bits that any difference to `cutoff` has, wrapping: where the top one is missing, every item is at or after a cutoff below 2^63.
// Baseline x86-64 has no comparison of vectors of 64-bit numbers, but a subtraction.
fn differences(list: &[u64], first: usize, cutoff: u64) -> u64
    ensures { result < 2 ^ 63 → cutoff < 2 ^ 63 → recent cutoff (drop first list.now) ≡ length list.now - first }
{
    fold_from(list, first, |bits, t| bits | t.wrapping_sub(cutoff))
}

// How many readings from place `first` on are at or after `cutoff`, by a comparison of each.
fn compared(list: &[u64], first: usize, cutoff: u64) -> u64
    ensures { result ≡ recent cutoff (drop first list.now) % 2 ^ 64 }
{
    fold_from(list, first, |n, t| n.wrapping_add(u64::from(cutoff <= t)))
}

// How many readings of the list are at or after the cutoff, from place `first` on: mostly all, which needs no comparison.
// Ruled out: a count that leaves out a reading equal to the cutoff; one that goes on past the length.
pub fn count_recent(list: &[u64], first: u32, len: u32, cutoff: u64) -> u32
    ensures { result ≡ recent cutoff (drop first (view len list.now)) }
{
    let times = view(list, len);
    let k = (first as usize).min(times.len());
    if (differences(times, k, cutoff) | cutoff) >> 63 == 0 {
        return (times.len() - k) as u32;
    }
    compared(times, k, cutoff) as u32
}

// Moves the n elements from k on down to the front. The compiler makes one move of a loop whose distance it knows, and 1 is the most
// frequent.
fn slide(s: &mut [u64], k: usize, n: usize)
    requires { k + n ≤ length s.old }
    ensures { s.new ≡ take n (drop k s.old) ++ drop n s.old }
{
    match k {
        0 => (),
        1 => s.copy_within(1..1 + n, 0),
        _ => s.copy_within(k..k + n, 0),
    }
}

// Drops the k oldest of the n items, and clears the places that fall free.
fn remove(s: &mut [u64], n: usize, k: usize)
    requires { (k ≤ n) × (n ≤ length s.old) }
    ensures { s.new ≡ laid n (drop k (take n s.old)) s.old }
{
    let kept = n - k;
    slide(s, k, kept);
    s[kept..n].fill(0);
}

// The length, if the storage may hold a list of it.
fn length_in(list: &[u64], len: u32) -> Result<usize, Refusal>
    ensures held { IfOk result (λ n. (n ≡ len) × (n ≤ 4096) × (length list.now ≡ 4096)) }
    ensures refused { IfErr result (λ r. (change : Left) → on_list Items.Times len list.now change ≡ refuse r list.now) }
{
    if list.len() != PLACES {
        return Err(Refusal::Storage);
    }
    if !may_have(Items::Times, len) {
        return Err(Refusal::Unsound);
    }
    Ok(len as usize)
}

// Drops so many of the oldest items.
// Ruled out: one that leaves an old item in a place that fell free; one that drops the newest.
#[tactic(auto, unfolding(crate::specs::Change::replaced))]
pub fn drop_oldest(list: &mut [u64], len: u32, gone: u32) -> Result<u32, Refusal>
    ensures { left (told result) list.new ≡ replaced gone [] len list.old }
{
    let n = length_in(list, len)?;
    let k = (gone as usize).min(n);
    remove(list, n, k);
    Ok((n - k) as u32)
}

// Drops so many of the oldest items, and appends one. Where 4,096 would be left before it, nothing is done.
// Ruled out: one that keeps what it dropped where it refuses; one that appends behind a place that fell free.
#[tactic(auto, unfolding(crate::specs::Change::replaced))]
pub fn turn_over(list: &mut [u64], len: u32, gone: u32, item: u64) -> Result<u32, Refusal>
    ensures { left (told result) list.new ≡ replaced gone (item ∷ []) len list.old }
{
    let n = length_in(list, len)?;
    let k = (gone as usize).min(n);
    let kept = n - k;
    if kept == PLACES {
        return Err(Refusal::Full);
    }
    remove(list, n, k);
    list[kept] = item;
    Ok((kept + 1) as u32)
}

// Empties the list.
// Ruled out: one that leaves the newest item; one that answers a length other than 0.
#[tactic(auto, unfolding(crate::specs::Change::cleared))]
pub fn clear(list: &mut [u64], len: u32) -> Result<u32, Refusal>
    ensures { left (told result) list.new ≡ cleared len list.old }
{
    let n = length_in(list, len)?;
    remove(list, n, n);
    Ok(0)
}

// The reading from which on a failure counts.
// Ruled out: a difference that wraps; the period taken from the wrong side.
pub fn cutoff(reading: u64, period: u64) -> u64
    ensures { result ≡ cutoff_of reading period }
{
    reading.saturating_sub(period)
}

// How many elements at the front are below `cutoff`.
fn first_recent(s: &[u64], cutoff: u64) -> usize
    ensures value { result ≡ prefix_len (λ t. nat_lt t cutoff) s.now }
    ensures within { result ≤ length s.now }
{
    s.iter().take_while(|t| **t < cutoff).count()
}

// How many readings at the front of the list are before the cutoff: those ahead of the first that isn't.
// Ruled out: one that counts a reading equal to the cutoff; one that also counts a reading behind a recent one.
pub fn count_expired(list: &[u64], len: u32, cutoff: u64) -> u32
    ensures { (drop result (view len list.now) ≡ evicted cutoff (view len list.now)) × (result ≤ len) }
{
    first_recent(view(list, len), cutoff) as u32
}
