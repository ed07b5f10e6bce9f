// The numbers of a line: decimals below 2^64, one space between them, a line feed at the end.

// The most that a line has: a state with 4,096 items.
pub(crate) const MOST: usize = 4105;

// A sign in front, which `parse` takes, is none of the sample's.
fn number(word: &str) -> Option<u64> {
    if word.starts_with('+') {
        return None;
    }
    word.parse().ok()
}

// All numbers of a line of text, or none where it is no whole line of them.
pub(crate) fn all<'a>(line: &[u8], room: &'a mut [u64; MOST]) -> Option<&'a [u64]> {
    let text = str::from_utf8(line).ok()?.strip_suffix('\n')?;
    let mut count: usize = 0;
    for word in text.split(' ') {
        *room.get_mut(count)? = number(word)?;
        count += 1;
    }
    room.get(..count)
}

// Those that are still to be read.
#[derive(Clone, Copy)]
pub(crate) struct Numbers<'a>(pub(crate) &'a [u64]);

impl<'a> Numbers<'a> {
    // The next N.
    pub(crate) fn take<const N: usize>(&mut self) -> Option<[u64; N]> {
        let (next, rest) = self.0.split_first_chunk()?;
        self.0 = rest;
        Some(*next)
    }

    // All that are left, which are to be so many.
    pub(crate) fn rest(self, count: u64) -> Option<&'a [u64]> {
        (self.0.len() as u64 == count).then_some(self.0)
    }

    pub(crate) fn end(self) -> Option<()> {
        self.0.is_empty().then_some(())
    }
}
