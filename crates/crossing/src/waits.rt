// The answers of a wait as plain numbers.
ghost use Rattle.std.specs.Prelude.{refl, Some, None};
ghost use Rattle.error.specs.Told.{tell};
ghost use Rattle.wait.specs.Answers.{act_values};
ghost use Rattle.waiting.specs.Answers.{completed_told, course_is};
ghost use Rattle.crossing.specs.Waits.{flow_told};

use crate::Told;
use crate::codes::{
    ADMITTED, LOOK_AGAIN, SLEEP, SLEEP_UNLESS_RESUMED, TOLD_DEADLINE, TOLD_IMPOSSIBLE, TOLD_SHED,
    TOLD_UNFINISHED, YIELD,
};
use crate::tell::{Tell, told};
use std::ops::ControlFlow;
use wait::Act;
use waiting::Completed;

// The end of a wait.
impl Tell for Completed {
    ghost use Rattle.waiting.specs.declared.Completed.TheVariants.{Admitted, Shed, Impossible, Deadline};

    ghost told = { completed_told };

    fn tell(self) -> Told {
        match self {
            Completed::Admitted(t) => told(0, [ADMITTED, t.generation, u64::from(t.probe)]),
            Completed::Shed(delay, refund) => told(TOLD_SHED, [delay.ms, refund, 0]),
            Completed::Impossible(cost, capacity) => told(TOLD_IMPOSSIBLE, [cost, capacity, 0]),
            Completed::Deadline(back) => told(TOLD_DEADLINE, [back, 0, 0]),
        }
    }

    ghost three = { elim [ Admitted t ↦ refl | Shed d refund ↦ refl | Impossible cost capacity ↦ refl | Deadline back ↦ refl ] };
}

// What the host is to do: 1 to 4, and for how long, and past which epoch.
impl Tell for Act {
    ghost use Rattle.wait.specs.declared.Act.TheVariants.{Sleep, SleepUnlessResumed, Yield, LookAgain};

    ghost told = { λ act. tell 0 (act_values act) };

    fn tell(self) -> Told {
        match self {
            Act::Sleep(nanos) => told(0, [SLEEP, nanos, 0]),
            Act::SleepUnlessResumed(nanos, epoch) => told(0, [SLEEP_UNLESS_RESUMED, nanos, epoch]),
            Act::Yield => told(0, [YIELD, 0, 0]),
            Act::LookAgain => told(0, [LOOK_AGAIN, 0, 0]),
        }
    }

    ghost three = { elim [ Sleep nanos ↦ refl | SleepUnlessResumed nanos epoch ↦ refl | Yield ↦ refl | LookAgain ↦ refl ] };
}

// What a turn came to: what the host is to do, or an end.
// Ruled out: an end told with the number 0; an act told without its values.
impl<E: Tell, A: Tell> Tell for ControlFlow<E, A> {
    ghost use Rattle.std.specs.declared.ops.ControlFlow.TheVariants.{Continue, Break};

    ghost told = { flow_told E.told A.told };

    fn tell(self) -> Told {
        match self {
            ControlFlow::Continue(act) => act.tell(),
            ControlFlow::Break(end) => end.tell(),
        }
    }

    ghost three = { elim [ Continue act ↦ A.three act | Break end ↦ E.three end ] };
}

// What a run came to: an end, or its limit or its turns used up.
// Ruled out: turns used up told as a deadline; an end told as turns used up.
impl Tell for Option<Completed> {
    ghost use Rattle.waiting.specs.declared.Completed.TheVariants.{Admitted, Shed, Impossible, Deadline};

    ghost told = { course_is };

    fn tell(self) -> Told {
        match self {
            Some(end) => end.tell(),
            None => told(TOLD_UNFINISHED, [0, 0, 0]),
        }
    }

    ghost three = { elim [
      | Some (Admitted t) ↦ refl
      | Some (Shed d refund) ↦ refl
      | Some (Impossible cost capacity) ↦ refl
      | Some (Deadline back) ↦ refl
      | None ↦ refl
    ] };
}
