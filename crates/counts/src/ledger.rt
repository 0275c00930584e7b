// What stands in a book, and which calls it refuses, by the rules alone.
use crate::answers::Refusal;
use crate::differences::Difference;
use crate::figures::{Ask, Board, Rule, Step, top_mhz};
use std::alloc::Global;

// the longest hyperperiod, and the longest time to a deadline, in µs
const LONGEST: u64 = 60_000_000;

// the last time of a clock, in µs
const LAST_TIME: u64 = 1_000_000_000_000;

// The tasks that stand, in the order in which they were admitted, and what was set.
#[derive(Drop)]
pub struct Ledger {
    pub standing: Vec<Ask>,
    // in thousandths
    pub capacity: u64,
    // in µs
    pub clock: u64,
}

// Cycles over MHz, rounded up: the time in µs.
pub fn busy_time(cycles: u64, mhz: u64) -> Option<u64> {
    cycles.checked_add(mhz)?.checked_sub(1)?.checked_div(mhz)
}

// The first multiple of the larger that the smaller divides; none if it passes the longest hyperperiod.
fn common_multiple(a: u64, b: u64) -> Option<u64> {
    let larger = a.max(b);
    let smaller = a.min(b);
    let most = LONGEST.checked_div(larger)?;
    (1..=most)
        .map(|times| larger.saturating_mul(times))
        .find(|multiple| multiple.checked_rem(smaller) == Some(0))
}

// The least common multiple of the periods in µs, 1 of no tasks; none if it passes the longest.
pub fn joint_period(standing: &[Ask]) -> Option<u64> {
    standing
        .iter()
        .try_fold(1, |joint, ask| common_multiple(joint, ask.due))
}

// Cycles, access and shares are in range, with one share for each device.
fn figures_fit(ask: &Ask, devices: usize) -> bool {
    let shares = ask.shares.listed();
    (1..=1_000_000_000).contains(&ask.cycles)
        && ask.access <= 1_000_000
        && shares.len() == devices
        && shares.iter().all(|share| *share <= 1_000)
}

impl Ledger {
    // Of a new book.
    pub fn empty(heap: Global) -> Ledger {
        Ledger {
            standing: Vec::new(heap),
            capacity: 1_000,
            clock: 0,
        }
    }

    fn is_taken(&self, port: u64) -> bool {
        self.standing.iter().any(|ask| ask.port == port)
    }

    // The period, or the time to the deadline, in µs; none if it is out of range.
    fn time_for(&self, rule: Rule, due: u64) -> Option<u64> {
        let (time, range) = match rule {
            Rule::Periodic => (due, 100..=10_000_000),
            Rule::Sporadic => (due.saturating_sub(self.clock), 1..=LONGEST),
        };
        range.contains(&time).then_some(time)
    }

    // The hyperperiod would be too long with this period more, in µs.
    fn too_long_with(&self, period: u64) -> bool {
        joint_period(&self.standing)
            .and_then(|joint| common_multiple(joint, period))
            .is_none()
    }

    // The number that the task is refused with; none if it is admitted.
    fn refusal_of(&self, board: &Board, ask: &Ask) -> Option<u8> {
        if !(1..=48).contains(&ask.port) {
            return Some(22);
        }
        if self.is_taken(ask.port) {
            return Some(23);
        }
        if !figures_fit(ask, board.standby.len()) {
            return Some(25);
        }
        let Some(time) = self.time_for(board.rule, ask.due) else {
            return Some(26);
        };
        match busy_time(ask.cycles, top_mhz(&board.levels)) {
            Some(busy) if busy <= time => {}
            _ => return Some(27),
        }
        match board.rule {
            Rule::Periodic if self.too_long_with(ask.due) => Some(28),
            _ => None,
        }
    }

    // The capacity or the clock is in range.
    fn setting_fits(&self, rule: Rule, value: u64) -> bool {
        match rule {
            Rule::Periodic => (1..=1_000).contains(&value),
            Rule::Sporadic => (self.clock..=LAST_TIME).contains(&value),
        }
    }

    // What the book answers to the call: a refused task's port is named, and none with a setting.
    pub fn answer_to(&self, board: &Board, step: &Step) -> Result<(), Refusal> {
        let refusal = match step {
            Step::Admit(ask) => self.refusal_of(board, ask).map(|number| Refusal {
                number,
                port: ask.port,
            }),
            Step::Set(value) if self.setting_fits(board.rule, *value) => None,
            Step::Set(_) => Some(Refusal {
                number: 29,
                port: 0,
            }),
        };
        refusal.map_or(Ok(()), Err)
    }

    // Enters a call that is not refused.
    pub fn enter(&mut self, board: &Board, step: &Step) -> Result<(), Difference> {
        match (step, board.rule) {
            (Step::Admit(ask), _) => self.standing.push(*ask)?,
            (Step::Set(thousandths), Rule::Periodic) => self.capacity = *thousandths,
            (Step::Set(time), Rule::Sporadic) => self.clock = *time,
        }
        Ok(())
    }
}
