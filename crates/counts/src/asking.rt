// The calls that fill a book: tasks, some of which are to be refused, and capacities or clocks.
use crate::differences::Difference;
use crate::figures::{Ask, MOST_SHARES, Rule, Shares, Step};
use crate::making::Family;
use crate::numbers::Numbers;
use std::alloc::Global;

// What the tasks of a board are made for.
#[derive(Clone, Copy)]
pub struct Plot {
    pub rule: Rule,
    pub family: Family,
    // speed of the top level
    pub top_mhz: u64,
    pub devices: usize,
    // how many tasks ask to be admitted
    pub asks: u64,
}

// The task with a share above the most, or with one share too many or too few.
fn with_bad_shares(numbers: &mut Numbers, mut ask: Ask) -> Ask {
    if numbers.once_in(2) {
        ask.shares.thousandths[0] = 1_001;
    } else if ask.shares.count > 0 && numbers.once_in(2) {
        ask.shares.count -= 1;
    } else {
        ask.shares.count = ask.shares.count.saturating_add(1);
    }
    ask
}

impl Plot {
    // A period in µs, of few whose least common multiple is small, or a deadline in µs.
    fn make_due(&self, numbers: &mut Numbers) -> u64 {
        match (self.rule, self.family) {
            (Rule::Periodic, Family::Even) => numbers.pick(&[1_000, 2_000, 4_000, 8_000]),
            (Rule::Periodic, Family::Steep) => numbers.pick(&[500, 1_000, 2_000]),
            (Rule::Periodic, Family::Loose) => numbers.pick(&[200, 300, 400, 600, 1_200]),
            (Rule::Periodic, Family::Vast) => numbers.pick(&[4_000_000, 6_000_000, 10_000_000]),
            (Rule::Sporadic, Family::Vast) => numbers.pick(&[1_000_000, 2_500_000, 60_000_000]),
            (Rule::Sporadic, Family::Even) => numbers.pick(&[1_500, 3_000, 6_000]),
            (Rule::Sporadic, Family::Steep) => numbers.pick(&[400, 800, 1_200, 2_000]),
            (Rule::Sporadic, Family::Loose) => numbers.below(3_000).saturating_add(300),
        }
    }

    // Cycles that leave time for the other tasks at the top level.
    fn make_cycles(&self, numbers: &mut Numbers, due: u64) -> u64 {
        let span = due.checked_div(self.asks).unwrap_or(due);
        match self.family {
            Family::Vast => numbers.up_to(1_000_000_000),
            Family::Even => numbers.up_to(2).saturating_mul(84_000),
            Family::Steep => numbers
                .up_to(span / 10)
                .saturating_mul(10)
                .saturating_mul(self.top_mhz),
            Family::Loose => {
                let most = numbers.up_to(span).saturating_mul(self.top_mhz);
                most.saturating_sub(numbers.below(self.top_mhz))
            }
        }
    }

    // A share of each device in thousandths, often none.
    fn make_shares(&self, numbers: &mut Numbers) -> Shares {
        let mut thousandths = [0; MOST_SHARES];
        if numbers.once_in(2) {
            for share in thousandths.iter_mut() {
                *share = numbers.pick(&[0, 1, 250, 500, 1_000]);
            }
        }
        Shares {
            thousandths,
            count: self.devices,
        }
    }

    // A task that no refusal is meant for; a third of them are twins of the one before.
    fn make_ask(&self, numbers: &mut Numbers, before: Option<Ask>) -> Ask {
        let port = numbers.up_to(48);
        if let Some(twin) = before {
            if numbers.once_in(3) {
                return Ask { port, ..twin };
            }
        }
        let due = self.make_due(numbers);
        Ask {
            port,
            cycles: self.make_cycles(numbers, due),
            access: numbers.pick(&[0, 0, 1, 1_000, 50_000, 1_000_000]),
            shares: self.make_shares(numbers),
            due,
        }
    }

    // The task with a figure at an edge of its range or past it. `taken` is a port that may have a task.
    fn spoil(&self, numbers: &mut Numbers, taken: u64, mut ask: Ask) -> Ask {
        let most = self.top_mhz.saturating_mul(ask.due);
        match numbers.below(10) {
            0 => ask.port = numbers.pick(&[0, 49, u64::MAX]),
            1 => ask.port = taken,
            2 => ask.cycles = numbers.pick(&[0, 1, 1_000_000_000, 1_000_000_001]),
            3 => ask.access = numbers.pick(&[1_000_000, 1_000_001]),
            4 => ask = with_bad_shares(numbers, ask),
            5 => ask.due = numbers.pick(&[0, 99, 100, 10_000_000, 10_000_001]),
            6 => ask.due = numbers.pick(&[60_000_000, 60_000_001, u64::MAX]),
            7 | 8 => ask.cycles = most.saturating_add(numbers.below(2)),
            _ => ask.due = numbers.pick(&[9_999_991, 7_001, 3_600_000]),
        }
        ask
    }

    // The task, with one figure or two changed once in six times.
    fn perhaps_spoil(&self, numbers: &mut Numbers, before: Option<Ask>, ask: Ask) -> Ask {
        if !numbers.once_in(6) {
            return ask;
        }
        let taken = before.map_or(ask.port, |other| other.port);
        let bad = self.spoil(numbers, taken, ask);
        if numbers.once_in(3) {
            return self.spoil(numbers, taken, bad);
        }
        bad
    }

    // A capacity in thousandths or a clock in µs; a few are out of range or back in time.
    fn make_setting(&self, numbers: &mut Numbers) -> u64 {
        if numbers.once_in(12) {
            return numbers.pick(&[0, 1, 1_001, 1_000_000_000_000, 1_000_000_000_001]);
        }
        match self.rule {
            Rule::Periodic => numbers.pick(&[1_000, 950, 900, 800, 700, 600, 500, 400, 333, 250]),
            Rule::Sporadic => numbers.pick(&[1, 10, 50, 100, 150, 200, 399, 400]),
        }
    }

    // The calls: each task asks once, and a setting may stand before any of them and at the end.
    pub fn make_steps(&self, heap: Global, numbers: &mut Numbers) -> Result<Vec<Step>, Difference> {
        let mut steps = Vec::new(heap);
        let mut before: Option<Ask> = None;
        for _ in 0..self.asks {
            if numbers.once_in(8) {
                steps.push(Step::Set(self.make_setting(numbers)))?;
            }
            let ask = self.make_ask(numbers, before);
            steps.push(Step::Admit(self.perhaps_spoil(numbers, before, ask)))?;
            before = Some(ask);
        }
        if numbers.once_in(2) {
            steps.push(Step::Set(self.make_setting(numbers)))?;
        }
        Ok(steps)
    }
}
