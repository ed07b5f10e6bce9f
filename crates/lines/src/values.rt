// Fields: a space and a number.
ghost use Rattle.std.specs.Prelude.{◌≡◌};
ghost use Rattle.lines.specs.Reads.{seen};
ghost use Rattle.lines.specs.Take.{take_field, take_narrow, take_bits, take_ticket};

use crate::digits::{read_decimal, read_hex16};
use breaker::Ticket;

// A decimal of 64 bits.
#[tactic(auto, using(crate::proofs::After::stripped), unfolding(crate::specs::Take::take_field))]
pub(crate) fn read_field(s: &[u8]) -> Option<(u64, &[u8])>
    ensures { seen result ≡ take_field s.now }
{
    read_decimal(s.strip_prefix(b" ")?)
}

// A decimal of 32 bits.
#[tactic(auto, unfolding(crate::specs::Take::take_narrow))]
pub(crate) fn read_narrow(s: &[u8]) -> Option<(u32, &[u8])>
    ensures { seen result ≡ take_narrow s.now }
{
    let (value, rest) = read_field(s)?;
    Some((u32::try_from(value).ok()?, rest))
}

// 64 bits as 16 hexadecimal digits.
#[tactic(auto, using(crate::proofs::After::stripped), unfolding(crate::specs::Take::take_bits))]
pub(crate) fn read_bits(s: &[u8]) -> Option<(u64, &[u8])>
    ensures { seen result ≡ take_bits s.now }
{
    read_hex16(s.strip_prefix(b" ")?)
}

// A ticket: its generation and its probe flag, 0 or 1.
#[tactic(auto, unfolding(crate::specs::Take::take_ticket))]
pub(crate) fn read_ticket(s: &[u8]) -> Option<(Ticket, &[u8])>
    ensures { seen result ≡ take_ticket s.now }
{
    let (generation, s) = read_field(s)?;
    let (flag, rest) = read_field(s)?;
    if flag > 1 {
        return None;
    }
    let ticket = Ticket {
        generation,
        probe: flag == 1,
    };
    Some((ticket, rest))
}
