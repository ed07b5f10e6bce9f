// An answer as plain numbers: the number of the table, and its values with zeros for those it has not.
ghost use Rattle.std.specs.Prelude.{◌≡◌, ℕ, [], ◌∷◌, get_or, refl, Some, None, Ok, Err};
ghost use Rattle.error.specs.Told.{Told as Answer, nothing, refused, tell, told_or};
ghost use Rattle.blocks.specs.Block.{judged_told};
ghost use Rattle.breaker.specs.Answers.{decision_values, granted_told, inner_told, not_admitted, reservation_values, shed_told};
ghost use Rattle.crossing.specs.Crossing.{packed};
ghost use Rattle.crossing.specs.Waits.{packed_wait};

use crate::codes::{
    REPLY_ACQUIRED, REPLY_IMPOSSIBLE, REPLY_RETRY, RESERVED_NOTHING, RESERVED_WAIT,
    TOLD_IMPOSSIBLE, TOLD_RETRY, TOLD_SHED,
};
use crate::{Told, Waited};
use blocks::BODY_AT;
use breaker::{Decision, Delay, NotAdmitted, Ticket, Tried};
use error::Refusal;

// An answer that is told to C.
pub trait Tell {
    ghost told: { Self → Answer };

    fn tell(self) -> Told
        ensures { result ≡ packed (told self) };

    // No answer has more than three values.
    ghost three: { (x : Self) → get_or (told x).values 3 0 ≡ 0 };
}

// What a call of a wait is told, after so many turns of a run; 0 where it is no run.
// Ruled out: turns that are told as a value; a value that is told as the turns.
pub fn tell_wait<A: Tell>(answer: A, taken: u64) -> Waited
    ensures { result ≡ packed_wait (A.told answer) taken }
{
    let told = answer.tell();
    Waited {
        number: told.number,
        v1: told.v1,
        v2: told.v2,
        v3: told.v3,
        v4: 0,
        taken,
    }
}

// A number and three values.
pub(crate) fn told(number: u32, values: [u64; 3]) -> Told
    ensures { result ≡ packed (tell number values) }
{
    let [v1, v2, v3] = values;
    Told { number, v1, v2, v3 }
}

// Told with number 0.
fn accepted(values: [u64; 3]) -> Told
    ensures { result ≡ packed (tell 0 values) }
{
    told(0, values)
}

impl Tell for Refusal {
    ghost told = { refused };

    fn tell(self) -> Told {
        told(self.number(), [0, 0, 0])
    }

    ghost three = { λ _. refl };
}

impl Tell for () {
    ghost told = { λ _. nothing };

    fn tell(self) -> Told {
        accepted([0, 0, 0])
    }

    ghost three = { λ _. refl };
}

// A count, a refund or what is given back. The bodies of the three integers' impls are a line each, and differ in how they widen.
impl Tell for u64 {
    ghost told = { λ n. tell 0 (n ∷ []) };

    fn tell(self) -> Told {
        accepted([self, 0, 0])
    }

    ghost three = { λ _. refl };
}

impl Tell for u32 {
    ghost told = { λ n. tell 0 (n ∷ []) };

    fn tell(self) -> Told {
        accepted([u64::from(self), 0, 0])
    }

    ghost three = { λ _. refl };
}

// A used length.
impl Tell for usize {
    ghost told = { λ n. tell 0 (n ∷ []) };

    fn tell(self) -> Told {
        accepted([self as u64, 0, 0])
    }

    ghost three = { λ _. refl };
}

impl Tell for Ticket {
    ghost told = { granted_told };

    fn tell(self) -> Told {
        accepted([self.generation, u64::from(self.probe), 0])
    }

    ghost three = { λ _. refl };
}

// A shed.
impl Tell for Delay {
    ghost told = { shed_told };

    fn tell(self) -> Told {
        told(TOLD_SHED, [self.ms, 0, 0])
    }

    ghost three = { λ _. refl };
}

impl Tell for NotAdmitted {
    ghost use Rattle.breaker.specs.declared.NotAdmitted.TheVariants.{Shed, Refused};

    ghost told = { not_admitted };

    fn tell(self) -> Told {
        match self {
            NotAdmitted::Shed(delay) => delay.tell(),
            NotAdmitted::Refused(refusal) => refusal.tell(),
        }
    }

    ghost three = { elim [ Shed d ↦ refl | Refused r ↦ refl ] };
}

impl Tell for Tried {
    ghost use Rattle.breaker.specs.declared.Tried.TheVariants.{Granted, Retry, Impossible};

    ghost told = { inner_told };

    fn tell(self) -> Told {
        match self {
            Tried::Granted(ticket) => ticket.tell(),
            Tried::Retry => told(TOLD_RETRY, [0, 0, 0]),
            Tried::Impossible { cost, capacity } => {
                told(TOLD_IMPOSSIBLE, [u64::from(cost), u64::from(capacity), 0])
            }
        }
    }

    ghost three = { elim [ Granted t ↦ refl | Retry ↦ refl | Impossible cost capacity ↦ refl ] };
}

// The kind of a decision, and a retry's delay.
impl Tell for Decision {
    ghost use Rattle.breaker.specs.declared.Decision.TheVariants.{Acquired, Retry, Impossible};

    ghost told = { λ d. tell 0 (decision_values d) };

    fn tell(self) -> Told {
        match self {
            Decision::Acquired => accepted([u64::from(REPLY_ACQUIRED), 0, 0]),
            Decision::Retry(delay) => accepted([u64::from(REPLY_RETRY), delay.ms, 0]),
            Decision::Impossible => accepted([u64::from(REPLY_IMPOSSIBLE), 0, 0]),
        }
    }

    ghost three = { elim [ Acquired ↦ refl | Retry d ↦ refl | Impossible ↦ refl ] };
}

// A reservation: 1 and the wait, or 0.
impl Tell for Option<Delay> {
    ghost told = { λ w. tell 0 (reservation_values w) };

    fn tell(self) -> Told {
        match self {
            Some(delay) => accepted([u64::from(RESERVED_WAIT), delay.ms, 0]),
            None => accepted([u64::from(RESERVED_NOTHING), 0, 0]),
        }
    }

    ghost three = { elim [ Some d ↦ refl | None ↦ refl ] };
}

impl<A: Tell, E: Tell> Tell for Result<A, E> {
    ghost told = { told_or A.told E.told };

    fn tell(self) -> Told {
        match self {
            Ok(answer) => answer.tell(),
            Err(instead) => instead.tell(),
        }
    }

    ghost three = { elim [ Ok a ↦ A.three a | Err e ↦ E.three e ] };
}

// The check of a block: 0 with where its used body begins and how long it is.
// Ruled out: place and length swapped; 14 told as 13.
pub fn tell_judged(answer: Result<usize, Refusal>) -> Told
    ensures { result ≡ packed (judged_told answer) }
{
    match answer {
        Ok(used) => accepted([BODY_AT as u64, used as u64, 0]),
        Err(refusal) => refusal.tell(),
    }
}
