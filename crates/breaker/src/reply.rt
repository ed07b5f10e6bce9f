// The questions that decision.rs of the Rust answers.
ghost use Rattle.std.specs.Prelude.{◌≡◌};
ghost use Rattle.breaker.specs.Answers.{is_acquired, retry_after};

use crate::{Decision, Delay};

impl Decision {
    // Ruled out: a retry taken for acquired; an impossible one taken for acquired.
    pub fn is_acquired(self) -> bool
        ensures { result ≡ is_acquired self }
    {
        matches!(self, Decision::Acquired)
    }

    // Ruled out: a delay for an impossible one; a retry without its delay.
    pub fn retry_after(self) -> Option<Delay>
        ensures { result ≡ retry_after self }
    {
        match self {
            Decision::Retry(delay) => Some(delay),
            Decision::Acquired | Decision::Impossible => None,
        }
    }
}
