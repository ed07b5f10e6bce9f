// The archive journal's lines: a header or a call, read from the bytes. Each reader answers a value and what is left of the bytes.
#![tactic(auto)]

ghost use Rattle.lines.specs.Reads.{seen, CallRead, HeaderRead};

mod calls;
mod digits;
mod headers;
mod values;

use breaker::Ticket;
use calls::take_call;
use headers::take_header;

// A call of the journal: its reading, and what it is.
#[derive(Clone, Copy)]
pub struct Call {
    pub reading: u64,
    pub order: Order,
}

// What a call is, with its ticket where it has one.
#[derive(Clone, Copy)]
pub enum Order {
    Admit,
    Success(Ticket),
    Failure(Ticket),
    Abort(Ticket),
    Reset,
}

// A header's policy; the ratio by its bits. (No `Trip`: a header keeps a NaN's bits too, which an f64 can't be asked for.)
#[derive(Clone, Copy)]
pub enum HeaderPolicy {
    Consecutive(u32),
    Ratio {
        window: u32,
        bits: u64,
        min_calls: u32,
    },
    Windowed {
        failures: u32,
        period_ms: u64,
    },
}

// The first line.
#[derive(Clone, Copy)]
pub struct Header {
    pub policy: HeaderPolicy,
    pub cooldown_ms: u64,
    pub trials: u32,
    pub required: u32,
}

// The call whose line stands at the front, with its line feed, and what is left.
// Ruled out: one that takes a leading zero; one that takes a number too wide for its field.
#[tactic(auto, using(crate::proofs::CallLines::call_read))]
pub fn read_call(s: &[u8]) -> Option<(Call, &[u8])>
    ensures { CallRead s.now (seen result) }
{
    take_call(s)
}

// The header whose line stands at the front, with its line feed, and what is left.
// Ruled out: one that takes upper-case digits; one that takes 15 of them.
#[tactic(auto, using(crate::proofs::HeaderLines::header_read))]
pub fn read_header(s: &[u8]) -> Option<(Header, &[u8])>
    ensures { HeaderRead s.now (seen result) }
{
    take_header(s)
}
