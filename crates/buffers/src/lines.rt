// Lines of the sample: decimals below 2^64, one space between them, a line feed after each line.
// In a line that is none of the sample's, any byte before the digits ends a number, and one of 2^64 and more begins anew at 0.

// The numbers of a line, and zeros behind them. The longest line has the words of 67 blocks.
pub(crate) type Line = [u64; 8704];

// A number with a digit behind it, or 0 where that is no number below 2^64.
fn with_digit(value: u64, digit: u8) -> u64 {
    let tens = value.checked_mul(10);
    let digit = u64::from(digit.wrapping_sub(b'0'));
    tens.and_then(|tens| tens.checked_add(digit)).unwrap_or(0)
}

fn ends(byte: u8) -> bool {
    byte < b'0'
}

// The number before the byte that ends it. One that has no end is none.
fn number(word: &[u8]) -> u64 {
    match word {
        [digits @ .., end] if ends(*end) => {
            digits.iter().fold(0, |value, b| with_digit(value, *b))
        }
        _ => 0,
    }
}

// Before the first line.
pub(crate) fn blank() -> Line {
    [0; 8704]
}

// Reads the numbers of a line, in the place of those before.
pub(crate) fn read(line: &[u8], out: &mut Line) {
    out.fill(0);
    let words = line.split_inclusive(|b| ends(*b));
    for (place, word) in out.iter_mut().zip(words) {
        *place = number(word);
    }
}
