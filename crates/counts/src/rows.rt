// The rows of a board, measured in plain numbers.
use crate::differences::Difference;
use crate::figures::{Aim, Ask, Board, Rule};
use crate::ledger::{Ledger, busy_time, joint_period};
use crate::tolls::Toll;
use board::levels::Level;
use std::alloc::Global;

// the longest busy time of a sporadic task, in µs
const LONGEST_BUSY: u64 = 60_000_000;

// What a row does at a level that is offered to it.
#[derive(Clone, Copy)]
pub struct Offered {
    pub level: usize,
    // in µs
    pub load: u64,
    pub entry: Toll,
}

// The row of a standing task.
#[derive(Drop)]
pub struct CountedRow {
    pub port: u64,
    // in µs
    pub limit: u64,
    // from the lowest level on
    pub offers: Vec<Offered>,
}

impl CountedRow {
    // The smallest load that is offered, in µs; 0 of no offers.
    pub fn smallest_load(&self) -> u64 {
        self.offers
            .iter()
            .map(|offer| offer.load)
            .min()
            .unwrap_or(0)
    }

    // The least entry that is offered; the cost of nothing without an offer.
    pub fn least_entry(&self, aim: Aim) -> Toll {
        self.offers
            .iter()
            .map(|offer| offer.entry)
            .min()
            .unwrap_or(aim.nothing())
    }

    // What is offered at this level.
    pub fn offer_at(&self, level: usize) -> Option<Offered> {
        self.offers
            .iter()
            .find(|offer| offer.level == level)
            .copied()
    }
}

// The draw in µW: the level's power, and of each device its standby power, both in mW, times its share.
fn draw_at(level: &Level, standby: &[u64], shares: &[u64]) -> Option<u64> {
    let mut devices = standby.iter().zip(shares.iter());
    devices.try_fold(level.mw.checked_mul(1_000)?, |draw, (power, share)| {
        draw.checked_add(power.checked_mul(*share)?)
    })
}

// A standing task, among those of its board.
#[derive(Clone, Copy)]
struct Standing<'a> {
    board: &'a Board,
    ask: &'a Ask,
    // in µs; 1 for sporadic tasks
    hyperperiod: u64,
}

impl Standing<'_> {
    // The longest busy time at which a level is offered, in µs.
    fn longest_busy(&self) -> u64 {
        match self.board.rule {
            Rule::Periodic => self.ask.due,
            Rule::Sporadic => LONGEST_BUSY,
        }
    }

    // How often the task runs in the hyperperiod.
    fn jobs(&self) -> Option<u64> {
        match self.board.rule {
            Rule::Periodic => self.hyperperiod.checked_div(self.ask.due),
            Rule::Sporadic => Some(1),
        }
    }

    // What the level with this number offers the task, which is busy for so many µs with each job.
    fn offer(&self, number: usize, level: &Level, busy: u64) -> Option<Offered> {
        let jobs = self.jobs()?;
        let draw = draw_at(level, &self.board.standby, self.ask.shares.listed())?;
        // in pJ; the access energy is in nJ
        let run = draw.checked_mul(busy)?;
        let job = run.checked_add(self.ask.access.checked_mul(1_000)?)?;
        let energy = job.checked_mul(jobs)?;
        Some(Offered {
            level: number,
            load: busy.checked_mul(jobs)?,
            entry: self.board.aim.entry(energy, draw),
        })
    }

    // What the levels offer the task, from the lowest on.
    fn offers(&self, heap: Global) -> Result<Vec<Offered>, Difference> {
        let mut offers = Vec::new(heap);
        for (number, level) in self.board.levels.iter().enumerate() {
            let busy = busy_time(self.ask.cycles, level.mhz).ok_or(Difference::Range)?;
            if busy <= self.longest_busy() {
                let offer = self.offer(number, level, busy);
                offers.push(offer.ok_or(Difference::Range)?)?;
            }
        }
        Ok(offers)
    }

    // The limit of the task's row in µs.
    fn limit(&self, ledger: &Ledger) -> Option<u64> {
        match self.board.rule {
            Rule::Periodic => Some(self.hyperperiod.checked_mul(ledger.capacity)? / 1_000),
            Rule::Sporadic => Some(self.ask.due.saturating_sub(ledger.clock)),
        }
    }

    // The task's row.
    fn row(&self, heap: Global, ledger: &Ledger) -> Result<CountedRow, Difference> {
        Ok(CountedRow {
            port: self.ask.port,
            limit: self.limit(ledger).ok_or(Difference::Range)?,
            offers: self.offers(heap)?,
        })
    }
}

// The place in the order of the rows: by deadline in a sporadic book, and then by port.
fn turn_of(rule: Rule, ask: &Ask) -> (Option<u64>, u64) {
    match rule {
        Rule::Periodic => (None, ask.port),
        Rule::Sporadic => (Some(ask.due), ask.port),
    }
}

// The hyperperiod in µs; 1 for sporadic tasks.
fn hyperperiod_of(rule: Rule, standing: &[Ask]) -> Option<u64> {
    match rule {
        Rule::Periodic => joint_period(standing),
        Rule::Sporadic => Some(1),
    }
}

// The rows of what stands, in their order.
pub fn rows_of(
    heap: Global,
    board: &Board,
    ledger: &Ledger,
) -> Result<Vec<CountedRow>, Difference> {
    let rule = board.rule;
    let hyperperiod = hyperperiod_of(rule, &ledger.standing).ok_or(Difference::Range)?;
    let mut asks = ledger.standing.clone()?;
    asks.sort_by_key(|ask| turn_of(rule, ask))?;
    let mut rows = Vec::new(heap);
    for ask in asks.iter() {
        let task = Standing {
            board,
            ask,
            hyperperiod,
        };
        rows.push(task.row(heap, ledger)?)?;
    }
    Ok(rows)
}
