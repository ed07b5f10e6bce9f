// Numbers at the front of the bytes: decimals and hexadecimal digits.
// (By hand: `parse` takes a sign and leading zeros, and does not tell where the digits end; `from_str_radix` takes a sign and upper case.)
ghost use Rattle.std.specs.Prelude.{◌≡◌};
ghost use Rattle.lines.specs.Reads.{seen};
ghost use Rattle.lines.specs.Take.{hex_digit, take_digits, take_decimal, take_hex};

// The digits at the front, as many as there are.
#[tactic(auto, unfolding(crate::specs::Take::take_digits))]
fn read_digits(s: &[u8]) -> Option<(u64, &[u8])>
    ensures { seen result ≡ take_digits 0 s.now }
{
    let mut value: u64 = 0;
    let mut rest = s;
    while let [digit @ b'0'..=b'9', after @ ..] = rest {
        value = value
            .checked_mul(10)?
            .checked_add(u64::from(*digit - b'0'))?;
        rest = after;
    }
    Some((value, rest))
}

// A decimal without leading zero.
#[tactic(auto, unfolding(crate::specs::Take::take_decimal))]
pub(crate) fn read_decimal(s: &[u8]) -> Option<(u64, &[u8])>
    ensures { seen result ≡ take_decimal s.now }
{
    match s {
        [b'0', rest @ ..] => Some((0, rest)),
        [b'1'..=b'9', ..] => read_digits(s),
        _ => None,
    }
}

// The value of a digit, in lower case.
#[tactic(auto, unfolding(crate::specs::Take::hex_digit))]
fn hex_digit(b: u8) -> Option<u64>
    ensures { result ≡ hex_digit b }
{
    match b {
        b'0'..=b'9' => Some(u64::from(b - b'0')),
        b'a'..=b'f' => Some(u64::from(b - b'a' + 10)),
        _ => None,
    }
}

// 16 hexadecimal digits.
#[tactic(auto, unfolding(crate::specs::Take::take_hex))]
pub(crate) fn read_hex16(s: &[u8]) -> Option<(u64, &[u8])>
    ensures { seen result ≡ take_hex 16 0 s.now }
{
    let (digits, rest) = s.split_first_chunk::<16>()?;
    let mut value: u64 = 0;
    for digit in digits {
        let d = hex_digit(*digit)?;
        value = value * 16 + d;
    }
    Some((value, rest))
}
