// What is refused: each is tried before the call, and must change nothing.
use crate::asked::{Asked, Handed, Run, Start, Turn};
use crate::replay::Replay;
use crossing::TOLD_UNFINISHED;
use error::Refusal;
use history::PLACES;
use wait::{ENDED, LATEST, LONGEST, NEVER, Observed, TURN_WIDTH, Wait};

// Starts with a time over its bound.
fn late_starts(start: Start) -> [Start; 2] {
    [
        Start {
            clock: LONGEST + 1,
            ..start
        },
        Start {
            limited: true,
            timeout: LONGEST + 1,
            ..start
        },
    ]
}

// Waits with a time over its bound. One is due at most LATEST after what it has seen.
fn late_waits(wait: Wait) -> [Wait; 3] {
    [
        Wait {
            deadline: LATEST + 1,
            ..wait
        },
        Wait {
            seen: LONGEST + 1,
            ..wait
        },
        Wait {
            due: wait.seen.wrapping_add(LATEST + 1),
            ..wait
        },
    ]
}

// Turns with a time over its bound.
fn late_turns(turn: Observed) -> [Observed; 5] {
    [
        Observed {
            clock: LONGEST + 1,
            ..turn
        },
        Observed {
            duration: LONGEST + 1,
            ..turn
        },
        Observed {
            pause: LONGEST + 1,
            ..turn
        },
        Observed {
            postponed_before: LONGEST + 1,
            ..turn
        },
        Observed {
            postponed_after: LONGEST + 1,
            ..turn
        },
    ]
}

// Runs of no whole turn, with a limit of 0, and of no turn, and the number that each is told. The last two end unfinished.
fn odd_runs(turn: Turn) -> [(Run, u32); 4] {
    let refused = Refusal::Storage.number();
    [
        (turn.run(TURN_WIDTH - 1, 1), refused),
        (turn.run(TURN_WIDTH + 1, 1), refused),
        (turn.run(TURN_WIDTH, 0), TOLD_UNFINISHED),
        (turn.run(0, 1), TOLD_UNFINISHED),
    ]
}

impl Replay {
    // Of every call: a place less, a state that is none.
    pub(crate) fn refuse_call(&mut self, asked: Asked) {
        let handed = self.handed(asked);
        let short = Handed {
            places: PLACES - 1,
            ..handed
        };
        self.refuses(short, Refusal::Storage.number());
        let mut unsound = handed;
        unsound.ours.breaker.shared.state = 3;
        self.refuses(unsound, Refusal::Unsound.number());
    }

    pub(crate) fn refuse_start(&mut self, start: Start) {
        self.refuse_call(Asked::Start(start));
        for late in late_starts(start) {
            self.refuses(self.handed(Asked::Start(late)), Refusal::Time.number());
        }
    }

    // Of a wait's calls but a start: it has ended, or a time is over its bound.
    pub(crate) fn refuse_wait(&mut self, asked: Asked) {
        self.refuse_call(asked);
        let mut handed = self.handed(asked);
        let wait = handed.ours.pending.wait;
        for phase in [ENDED, 3] {
            handed.ours.pending.wait = Wait { phase, ..wait };
            self.refuses(handed, Refusal::Turn.number());
        }
        for late in late_waits(wait) {
            handed.ours.pending.wait = late;
            self.refuses(handed, Refusal::Time.number());
        }
    }

    // The same turn is refused alone and as a run.
    fn refuse_observed(&mut self, turn: Turn, refusal: Refusal) {
        for asked in [Asked::Turn(turn), Asked::Run(turn.run(TURN_WIDTH, 1))] {
            self.refuses(self.handed(asked), refusal.number());
        }
    }

    // Of a turn: a reply of no kind, or a time is over its bound. A turn is refused as a run too.
    pub(crate) fn refuse_turn(&mut self, turn: Turn) {
        self.refuse_wait(Asked::Turn(turn));
        self.refuse_wait(Asked::Run(turn.run(TURN_WIDTH, 1)));
        for kind in [0, NEVER + 1] {
            let observed = Observed {
                kind,
                ..turn.observed
            };
            self.refuse_observed(Turn { observed, ..turn }, Refusal::Turn);
        }
        for observed in late_turns(turn.observed) {
            self.refuse_observed(Turn { observed, ..turn }, Refusal::Time);
        }
        for (run, number) in odd_runs(turn) {
            self.refuses(self.handed(Asked::Run(run)), number);
        }
    }

    // A turn, a run and a drop of a wait that has ended.
    pub(crate) fn refuse_ended(&mut self, turn: Turn) {
        self.refuse_observed(turn, Refusal::Turn);
        self.refuses(self.handed(Asked::Drop), Refusal::Turn.number());
    }
}
