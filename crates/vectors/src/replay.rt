// The lines of the sample, replayed on our breaker and our wait, and compared with what the sample expects.
use crate::asked::{Asked, Handed, Made, Op, Ours, Turn};
use crate::lines::{Due, Line, Step};
use crate::numbers::{self, MOST};
use crate::tallies::{Tallies, count};
use crate::want::{HALF, Want};
use breaker::{Breaker, Shared, Ticket};
use crossing::{TOLD_UNFINISHED, Waited};
use error::Refusal;
use history::PLACES;
use trip::{CircuitBreakerBuilder, Config};
use wait::{GRANTED, TURN_WIDTH, ended_wait};
use waiting::Pending;

#[derive(Clone, Copy)]
pub(crate) struct Replay {
    ours: Ours,
    places: [u64; PLACES],
    want: Want,
    // whether the present line missed something: a flag, since a line is judged in several places, and goes on after each
    missed: bool,
    pub(crate) tallies: Tallies,
}

// What a call comes to, as numbers: what is told, the settings and the rest of the record. The wait is as it is.
#[derive(Clone, Copy, PartialEq, Eq)]
struct Came {
    told: [u64; 6],
    settings: [u64; HALF],
    shared: [u64; HALF],
    pending: Pending,
}

fn told_numbers(told: Waited) -> [u64; 6] {
    let number = told.number.into();
    [number, told.v1, told.v2, told.v3, told.v4, told.taken]
}

fn settings_numbers(config: Config) -> [u64; HALF] {
    [
        config.kind.into(),
        config.limit.into(),
        config.ratio_bits,
        config.min_calls.into(),
        config.period_ms,
        config.cooldown_ms,
        config.trials.into(),
        config.required.into(),
    ]
}

fn shared_numbers(shared: Shared) -> [u64; HALF] {
    [
        shared.state.into(),
        shared.generation,
        shared.run.into(),
        shared.counts.inflight.into(),
        shared.counts.trait_probes.into(),
        shared.counts.successes.into(),
        shared.open_until,
        shared.len.into(),
    ]
}

impl From<Made> for Came {
    fn from(made: Made) -> Self {
        let breaker = made.ours.breaker;
        Came {
            told: told_numbers(made.told),
            settings: settings_numbers(breaker.config),
            shared: shared_numbers(breaker.shared),
            pending: made.ours.pending,
        }
    }
}

// No wait: one that has ended. (A ticket has no Default: one is only granted.)
fn no_pending() -> Pending {
    Pending {
        wait: ended_wait(),
        ticket: Ticket {
            generation: 0,
            probe: false,
        },
    }
}

// Told this number alone.
fn alone(number: u32) -> Waited {
    Waited {
        number,
        ..Waited::default()
    }
}

impl Replay {
    // Before the first build the settings are zeros, which are not sound.
    pub(crate) fn new() -> Self {
        Replay {
            ours: Ours {
                breaker: Breaker::default(),
                pending: no_pending(),
            },
            places: [0; PLACES],
            want: Want::new(),
            missed: false,
            tallies: Tallies::default(),
        }
    }

    // What is handed in to a call: the record and the wait as they are, and all places.
    pub(crate) fn handed(&self, asked: Asked) -> Handed {
        Handed {
            asked,
            ours: self.ours,
            places: PLACES,
        }
    }

    // Makes a call on a record in a place of its own, which it lends.
    fn make(&mut self, handed: Handed) -> Made {
        let mut ours = handed.ours;
        let end = handed.places.min(PLACES);
        let told = handed.asked.make(&mut ours, &mut self.places[..end]);
        Made { told, ours }
    }

    // A miss where a call did not come to what is due, in what it told, the record, the wait or a place. What a wait was told is counted.
    fn judge(&mut self, asked: Asked, made: Made, due: Came) {
        if !matches!(asked, Asked::Build(_) | Asked::Call(_)) {
            self.tallies.count_told(made.told.number);
        }
        if Came::from(made) != due || !self.want.holds(&self.places) {
            self.missed = true;
        }
    }

    // Makes a call that is told this number, and changes nothing.
    pub(crate) fn refuses(&mut self, handed: Handed, number: u32) {
        count(&mut self.tallies.refusals);
        let made = self.make(handed);
        let due = Made {
            told: alone(number),
            ours: handed.ours,
        };
        self.judge(handed.asked, made, due.into());
    }

    // Makes a line's call, and answers what it was to come to. A line says nothing of the wait.
    fn answers(&mut self, asked: Asked, due: Due) -> Came {
        let handed = self.handed(asked);
        let made = self.make(handed);
        self.ours = made.ours;
        let [number, v1, v2, v3] = due.told;
        let due = Came {
            told: [number, v1, v2, v3, 0, 0],
            settings: self.want.settings(),
            shared: due.shared,
            pending: made.ours.pending,
        };
        self.judge(asked, made, due);
        due
    }

    // Builds a breaker in the record and the storage that the last one left: all is 0 but the settings.
    fn build(&mut self, builder: CircuitBreakerBuilder, settings: [u64; HALF]) {
        self.ours.pending = no_pending();
        self.want.build(settings);
        let due = Due {
            told: [0; 4],
            shared: [0; HALF],
        };
        self.answers(Asked::Build(builder), due);
    }

    // Sets the record and the places. Every state of the sample is sound.
    fn set(&mut self, shared: Shared, items: &[u64]) {
        self.want.set(items);
        self.places.copy_from_slice(self.want.places());
        self.ours.breaker.shared = shared;
        self.ours.pending = no_pending();
        if !handle::is_sound(&self.ours.breaker, &self.places) {
            self.missed = true;
        }
    }

    // A call on the breaker alone. No breaker is asked for a charge, so none refuses it. The list moves by the line's popped and pushed alone.
    fn step(&mut self, step: Step<'_>) {
        let Step { call, due, moved } = step;
        let asked = Asked::Call(call);
        self.tallies.count_call(call.op);
        if !matches!(call.op, Op::Charge { .. }) {
            self.refuse_call(asked);
        }
        if self.want.follow(moved.popped, moved.pushed) != due.len() {
            self.missed = true;
        }
        self.answers(asked, due);
    }

    // A turn as a run: its turns used up; its limit used up; and a second turn, which is refused.
    fn run(&mut self, before: Ours, turn: Turn, due: Came, ends: bool) {
        let (one, two) = (TURN_WIDTH, 2 * TURN_WIDTH);
        let refused = Refusal::Turn.number();
        for (numbers, limit, number) in [
            (one, 2, TOLD_UNFINISHED),
            (two, 1, TOLD_UNFINISHED),
            (two, 2, refused),
        ] {
            count(&mut self.tallies.runs);
            let asked = Asked::Run(turn.run(numbers, limit));
            let made = self.make(Handed {
                asked,
                ours: before,
                places: PLACES,
            });
            let mut told = if ends {
                due.told
            } else {
                told_numbers(alone(number))
            };
            told[5] = 1;
            self.judge(asked, made, Came { told, ..due });
        }
    }

    // A turn, alone and as a run. It ends the wait where it is told another number than 0, or a ticket.
    fn turn(&mut self, turn: Turn, due: Due) {
        self.refuse_turn(turn);
        let before = self.ours;
        let ends = due.told[0] != 0 || due.told[1] == 0;
        let due = self.answers(Asked::Turn(turn), due);
        self.run(before, turn, due, ends);
        if ends {
            self.refuse_ended(turn);
        }
    }

    fn drop_wait(&mut self, due: Due) {
        self.refuse_wait(Asked::Drop);
        self.answers(Asked::Drop, due);
        let granted = Turn {
            observed: [0, 0, 0, GRANTED, 0, 0, 0, 0].into(),
            now_ms: 0,
            capacity: 0,
        };
        self.refuse_ended(granted);
    }

    fn replay_line(&mut self, line: Line<'_>) {
        match line {
            Line::Build(builder, settings) => {
                count(&mut self.tallies.builds);
                self.build(builder, settings);
            }
            Line::State(shared, items) => {
                count(&mut self.tallies.states);
                self.set(shared, items);
            }
            Line::Step(step) => {
                count(&mut self.tallies.steps);
                self.step(step);
            }
            Line::Start(start, due) => {
                count(&mut self.tallies.starts);
                self.refuse_start(start);
                self.answers(Asked::Start(start), due);
            }
            Line::Turn(turn, due) => {
                count(&mut self.tallies.turns);
                self.turn(turn, due);
            }
            Line::Drop(due) => {
                count(&mut self.tallies.drops);
                self.drop_wait(due);
            }
            Line::Between(step) => {
                count(&mut self.tallies.calls_between);
                self.step(step);
            }
        }
    }

    // The call of a line takes away no more items than the list has.
    fn allows(&self, line: Line<'_>) -> bool {
        match line {
            Line::Step(step) | Line::Between(step) => step.moved.popped <= self.want.len(),
            _ => true,
        }
    }

    // Replays a line of text, and says whether it came to what it expects. One that is none of the sample's changes nothing.
    pub(crate) fn replay(&mut self, text: &[u8]) -> bool {
        self.missed = false;
        let mut room = [0; MOST];
        match numbers::all(text, &mut room).and_then(|numbers| Line::read(numbers)) {
            Some(line) if self.allows(line) => self.replay_line(line),
            _ => self.missed = true,
        }
        !self.missed
    }
}
