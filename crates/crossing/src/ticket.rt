// A ticket, and a wait with its ticket, as plain numbers: the probe flag is a byte.
ghost use Rattle.std.specs.Prelude.{◌≡◌};
ghost use Rattle.crossing.specs.Crossing.{ticket_by};
ghost use Rattle.crossing.specs.Waits.{pending_by, plain_ticket, plain_pending, after_turn};

use crate::{PlainPending, PlainTicket};
use breaker::Ticket;
use waiting::Pending;

// What a ticket that comes in means.
// Ruled out: a probe byte of 2 read as false; every ticket read as a probe.
impl From<PlainTicket> for Ticket {
    ghost from_gives = { λ plain ticket. ticket ≡ ticket_by plain };

    fn from(plain: PlainTicket) -> Ticket {
        Ticket {
            generation: plain.generation,
            probe: plain.probe != 0,
        }
    }
}

// What a pending wait that comes in means.
// Ruled out: another wait than the one handed in; a ticket that is never a probe.
impl From<PlainPending> for Pending {
    ghost from_gives = { λ plain pending. pending ≡ pending_by plain };

    fn from(plain: PlainPending) -> Pending {
        Pending {
            wait: plain.wait,
            ticket: plain.ticket.into(),
        }
    }
}

// A new ticket, as its caller holds it.
// Ruled out: a probe told with a byte of 0; a generation of 0 for all.
impl From<Ticket> for PlainTicket {
    ghost from_gives = { λ ticket plain. plain ≡ plain_ticket ticket };

    fn from(ticket: Ticket) -> PlainTicket {
        PlainTicket {
            generation: ticket.generation,
            probe: u8::from(ticket.probe),
        }
    }
}

// A new wait with its ticket, as its caller holds it.
// Ruled out: a probe told with a byte of 0; a wait that has ended.
impl From<Pending> for PlainPending {
    ghost from_gives = { λ pending plain. plain ≡ plain_pending pending };

    fn from(pending: Pending) -> PlainPending {
        PlainPending {
            wait: pending.wait,
            ticket: pending.ticket.into(),
        }
    }
}

// The pending wait that a caller holds after a turn, a run or a drop.
// Ruled out: a probe byte of 2 made 1; the wait before the turn.
pub fn after_turn(next: Pending, handed: PlainPending) -> PlainPending
    ensures { result ≡ after_turn next handed }
{
    let wait = next.wait;
    let ticket = handed.ticket;
    PlainPending { wait, ticket }
}
