// The header's line.
ghost use Rattle.std.specs.Prelude.{◌≡◌};
ghost use Rattle.lines.specs.Reads.{seen};
ghost use Rattle.lines.specs.Take.{take_policy, take_header};

use crate::values::{read_bits, read_field, read_narrow};
use crate::{Header, HeaderPolicy};

// The policy at the front: its letter and its own fields.
#[tactic(auto, unfolding(crate::specs::Take::take_policy, crate::specs::Take::take_consecutive, crate::specs::Take::take_ratio, crate::specs::Take::take_windowed))]
fn read_policy(s: &[u8]) -> Option<(HeaderPolicy, &[u8])>
    ensures { seen result ≡ take_policy s.now }
{
    match s {
        [b'C', s @ ..] => {
            let (n, s) = read_narrow(s)?;
            Some((HeaderPolicy::Consecutive(n), s))
        }
        [b'R', s @ ..] => {
            let (window, s) = read_narrow(s)?;
            let (bits, s) = read_bits(s)?;
            let (min_calls, s) = read_narrow(s)?;
            Some((
                HeaderPolicy::Ratio {
                    window,
                    bits,
                    min_calls,
                },
                s,
            ))
        }
        [b'W', s @ ..] => {
            let (failures, s) = read_narrow(s)?;
            let (period_ms, s) = read_field(s)?;
            Some((
                HeaderPolicy::Windowed {
                    failures,
                    period_ms,
                },
                s,
            ))
        }
        _ => None,
    }
}

// The header at the front: its policy, what every header has, and the line feed.
#[tactic(auto, using(crate::proofs::After::stripped), unfolding(crate::specs::Take::take_header))]
pub(crate) fn take_header(s: &[u8]) -> Option<(Header, &[u8])>
    ensures { seen result ≡ take_header s.now }
{
    let (policy, s) = read_policy(s)?;
    let (cooldown_ms, s) = read_field(s)?;
    let (trials, s) = read_narrow(s)?;
    let (required, s) = read_narrow(s)?;
    let rest = s.strip_prefix(b"\n")?;
    let header = Header {
        policy,
        cooldown_ms,
        trials,
        required,
    };
    Some((header, rest))
}
