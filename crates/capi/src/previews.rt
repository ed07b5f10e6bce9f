// A look before a permit is finished, for C. Record and list are only read.
ghost use Rattle.std.specs.Prelude.{◌≡◌};
ghost use Rattle.error.specs.Choice.{flag_of};
ghost use Rattle.breaker.specs.Calls as Calls;
ghost use Rattle.breaker.specs.Calls.{on_sound};
ghost use Rattle.preview.specs.Preview.{preview_of};
ghost use Rattle.crossing.specs.Crossing.{packed_preview, ticket_by};

use breaker::Breaker;
use crossing::{PlainPreview, PlainTicket};

// What pudvirez_settle would tell and leave.
// Ruled out: number 5 told as 0; a length that leaves out the eviction.
#[unsafe(no_mangle)]
pub extern "C" fn pudvirez_preview_settle(
    breaker: &Breaker,
    list: &[u64],
    now_ms: u64,
    ticket: PlainTicket,
    success: u8,
) -> PlainPreview
    ensures { result
        ≡ packed_preview
        (preview_of (on_sound (Calls.settle now_ms (ticket_by ticket) (flag_of success)) breaker.now list.now)) }
{
    plain::preview_settle(*breaker, list, now_ms, ticket, success)
}

// What pudvirez_abort_as would tell and leave.
// Ruled out: a flag of 2 taken for false; an abort of a stale probe.
#[unsafe(no_mangle)]
pub extern "C" fn pudvirez_preview_abort(
    breaker: &Breaker,
    list: &[u64],
    ticket: PlainTicket,
    via_trait: u8,
) -> PlainPreview
    ensures { result
        ≡ packed_preview
        (preview_of (on_sound (Calls.abort_as (ticket_by ticket) (flag_of via_trait)) breaker.now list.now)) }
{
    plain::preview_abort(*breaker, list, ticket, via_trait)
}
