// What the program counts, and the names under which it shows it.
use crate::asked::Op;
use std::fmt;

#[derive(Clone, Copy, Default)]
pub(crate) struct Tallies {
    admit_as: u64,
    settle: u64,
    abort_as: u64,
    release_trait_probe: u64,
    record_manual: u64,
    reset: u64,
    still_admits: u64,
    try_admit: u64,
    permit: u64,
    peek: u64,
    acquire_cost: u64,
    reserve: u64,
    available: u64,
    charge: u64,
    refund: u64,
    pub(crate) starts: u64,
    pub(crate) turns: u64,
    pub(crate) drops: u64,
    pub(crate) calls_between: u64,
    pub(crate) runs: u64,
    // how often waits were told each number of the table
    waits_told: [u64; 12],
    pub(crate) steps: u64,
    pub(crate) builds: u64,
    pub(crate) states: u64,
    pub(crate) refusals: u64,
    // lines that missed something
    pub(crate) differences: u64,
}

// Counts one more. buffers has it too: a library's function for it would be longer than this.
pub(crate) fn count(tally: &mut u64) {
    *tally = tally.saturating_add(1);
}

impl Tallies {
    // Counts a call by its operation.
    pub(crate) fn count_call(&mut self, op: Op) {
        count(match op {
            Op::AdmitAs { .. } => &mut self.admit_as,
            Op::Settle { .. } => &mut self.settle,
            Op::AbortAs { .. } => &mut self.abort_as,
            Op::ReleaseTraitProbe => &mut self.release_trait_probe,
            Op::RecordManual { .. } => &mut self.record_manual,
            Op::Reset => &mut self.reset,
            Op::StillAdmits { .. } => &mut self.still_admits,
            Op::TryAdmit { .. } => &mut self.try_admit,
            Op::Permit { .. } => &mut self.permit,
            Op::Peek { .. } => &mut self.peek,
            Op::AcquireCost { .. } => &mut self.acquire_cost,
            Op::Reserve { .. } => &mut self.reserve,
            Op::Available { .. } => &mut self.available,
            Op::Charge { .. } => &mut self.charge,
            Op::Refund { .. } => &mut self.refund,
        });
    }

    // Counts a number that a wait was told.
    pub(crate) fn count_told(&mut self, number: u32) {
        if let Some(tally) = self.waits_told.get_mut(number as usize) {
            count(tally);
        }
    }
}

impl fmt::Display for Tallies {
    fn fmt<W: fmt::Write>(&self, f: &mut fmt::Formatter<W>) -> fmt::Result {
        let named = [
            ("admit_as", self.admit_as),
            ("settle", self.settle),
            ("abort_as", self.abort_as),
            ("release_trait_probe", self.release_trait_probe),
            ("record_manual", self.record_manual),
            ("reset", self.reset),
            ("still_admits", self.still_admits),
            ("try_admit", self.try_admit),
            ("permit", self.permit),
            ("peek", self.peek),
            ("acquire_cost", self.acquire_cost),
            ("reserve", self.reserve),
            ("available", self.available),
            ("charge", self.charge),
            ("refund", self.refund),
            ("starts", self.starts),
            ("turns", self.turns),
            ("drops", self.drops),
            ("calls between turns", self.calls_between),
            ("runs", self.runs),
        ];
        for (name, tally) in named {
            writeln!(f, "{name} {tally}")?;
        }
        for number in [1usize, 3, 4, 6, 8, 9, 10, 11] {
            writeln!(f, "waits told {number} {}", self.waits_told[number])?;
        }
        writeln!(f, "steps {}", self.steps)?;
        writeln!(f, "builds {}", self.builds)?;
        writeln!(f, "states {}", self.states)?;
        writeln!(f, "refusals {}", self.refusals)?;
        writeln!(f, "differences {}", self.differences)
    }
}
