// What the sample expects of a breaker.
ghost use Rattle.std.specs.Prelude.{◌≡◌, length};

use history::PLACES;

// The settings, and the record without them, as numbers.
pub(crate) const HALF: usize = 8;

const SETTINGS: usize = PLACES;

const LEN: usize = PLACES + HALF;

// The places, behind them the settings, and the length of the list. (In one array, as a line may push items past the places.)
#[derive(Clone, Copy)]
pub(crate) struct Want([u64; LEN + 1]);

impl Want {
    // Nothing is expected yet.
    pub(crate) fn new() -> Self {
        Want([0; LEN + 1])
    }

    pub(crate) fn places(&self) -> &[u64]
        ensures { length result.now ≡ 4096 }
    {
        &self.0[..PLACES]
    }

    // Whether these are the places. (By place, and no test ends it early: so the compiler compares several a turn.)
    pub(crate) fn holds(&self, places: &[u64; PLACES]) -> bool {
        let mut differences: u64 = 0;
        for i in 0..PLACES {
            differences |= self.0[i] ^ places[i];
        }
        differences == 0
    }

    pub(crate) fn len(&self) -> u64 {
        self.0[LEN]
    }

    pub(crate) fn settings(&self) -> [u64; HALF] {
        let mut settings = [0; HALF];
        settings.copy_from_slice(&self.0[SETTINGS..LEN]);
        settings
    }

    // An empty list under these settings.
    pub(crate) fn build(&mut self, settings: [u64; HALF]) {
        self.set(&[]);
        self.put(SETTINGS, &settings);
    }

    // This list.
    pub(crate) fn set(&mut self, items: &[u64]) {
        self.0[..PLACES].fill(0);
        self.put(0, items);
        self.0[LEN] = items.len() as u64;
    }

    // Writes items to the places from `at` on.
    fn put(&mut self, at: usize, items: &[u64]) {
        if let Some(rest) = self.0.get_mut(at..) {
            for (place, item) in rest.iter_mut().zip(items) {
                *place = *item;
            }
        }
    }

    // Takes so many items away at the front, and puts these at the end. Answers the length.
    pub(crate) fn follow(&mut self, popped: u64, pushed: &[u64]) -> u64 {
        let kept = self.0[LEN].wrapping_sub(popped);
        let len = kept.wrapping_add(pushed.len() as u64);
        let places = &mut self.0[..PLACES];
        let gone = PLACES.min(popped as usize);
        places.copy_within(gone.., 0);
        places[PLACES - gone..].fill(0);
        self.put(kept as usize, pushed);
        self.0[LEN] = len;
        len
    }
}
