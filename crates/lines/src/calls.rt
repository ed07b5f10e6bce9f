// A call's line.
ghost use Rattle.std.specs.Prelude.{◌≡◌};
ghost use Rattle.lines.specs.Reads.{seen};
ghost use Rattle.lines.specs.Take.{take_order, take_call};

use crate::digits::read_decimal;
use crate::values::read_ticket;
use crate::{Call, Order};

// What a call is: its letter, and its ticket where it has one.
#[tactic(auto, unfolding(crate::specs::Take::take_order))]
fn read_order(s: &[u8]) -> Option<(Order, &[u8])>
    ensures { seen result ≡ take_order s.now }
{
    match s {
        [b'A', s @ ..] => Some((Order::Admit, s)),
        [b'Z', s @ ..] => Some((Order::Reset, s)),
        [letter, s @ ..] => {
            let (ticket, s) = read_ticket(s)?;
            let order = match letter {
                b'S' => Order::Success(ticket),
                b'F' => Order::Failure(ticket),
                b'X' => Order::Abort(ticket),
                _ => return None,
            };
            Some((order, s))
        }
        [] => None,
    }
}

// The call at the front: its reading, a space, what it is, and the line feed.
#[tactic(auto, using(crate::proofs::After::stripped), unfolding(crate::specs::Take::take_call))]
pub(crate) fn take_call(s: &[u8]) -> Option<(Call, &[u8])>
    ensures { seen result ≡ take_call s.now }
{
    let (reading, s) = read_decimal(s)?;
    let (order, s) = read_order(s.strip_prefix(b" ")?)?;
    let rest = s.strip_prefix(b"\n")?;
    Some((Call { reading, order }, rest))
}
