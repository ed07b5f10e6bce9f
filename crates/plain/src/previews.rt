// A look before a permit is finished: numbers in, the preview by value, numbers out.
ghost use Rattle.std.specs.Prelude.{◌≡◌};
ghost use Rattle.error.specs.Choice.{flag_of};
ghost use Rattle.breaker.specs.Calls as Calls;
ghost use Rattle.breaker.specs.Calls.{on_sound};
ghost use Rattle.preview.specs.Preview.{previewed, preview_of};
ghost use Rattle.crossing.specs.Crossing.{packed_preview, ticket_by};

use crate::pack::told_done;
use breaker::{Answered, Breaker};
use crossing::{PlainPreview, PlainTicket};
use error::Refusal;

// What a preview saw of the record that was handed in.
fn told_preview(seen: Result<Breaker, Refusal>, handed: Breaker) -> PlainPreview
    ensures { result ≡ packed_preview (previewed seen handed) }
{
    let Answered { answer, breaker } = told_done(seen, handed);
    PlainPreview {
        told: answer,
        breaker,
        len: breaker.shared.len,
    }
}

// What `settle` would do.
// Ruled out: number 5 told as 0; a length that leaves out the eviction.
pub fn preview_settle(
    breaker: Breaker,
    list: &[u64],
    now_ms: u64,
    ticket: PlainTicket,
    success: u8,
) -> PlainPreview
    ensures { result ≡ packed_preview (preview_of (on_sound (Calls.settle now_ms (ticket_by ticket) (flag_of success)) breaker list.now)) }
{
    told_preview(
        preview::preview_settle(breaker, list, now_ms, ticket.into(), success != 0),
        breaker,
    )
}

// What `abort_as` would do.
// Ruled out: a flag of 2 taken for false; an abort of a stale probe.
pub fn preview_abort(
    breaker: Breaker,
    list: &[u64],
    ticket: PlainTicket,
    via_trait: u8,
) -> PlainPreview
    ensures { result ≡ packed_preview (preview_of (on_sound (Calls.abort_as (ticket_by ticket) (flag_of via_trait)) breaker list.now)) }
{
    told_preview(
        preview::preview_abort(breaker, list, ticket.into(), via_trait != 0),
        breaker,
    )
}
