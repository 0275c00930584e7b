// What the count says of a board, and whether a plan agrees with it.
use crate::answers::{MARK, Plan, Refusal};
use crate::beginnings::first_passed;
use crate::choices::{Best, Sum, best_choice, cost_without_limits, ways_of};
use crate::differences::{Difference, Figure, agree, agree_on_answer, agree_on_cost};
use crate::figures::{Aim, Board};
use crate::ledger::Ledger;
use crate::places::{Place, count_fronts};
use crate::rows::{CountedRow, Offered, rows_of};
use crate::tolls::Toll;
use std::alloc::Global;

// the fronts are counted too of a board with no more choices than this
const FEW_CHOICES: usize = 4_000;

// The count of a board.
#[derive(Drop)]
pub struct Expected {
    pub aim: Aim,
    pub rows: Vec<CountedRow>,
    pub choices: usize,
    // the best choice that keeps every limit
    pub best: Option<Best>,
    // what the rows would cost at least without limits
    pub free: Toll,
    // the list of states of a board with few choices
    pub places: Option<Vec<Place>>,
}

// Counts all choices of what stands.
pub fn count_board(heap: Global, board: &Board, ledger: &Ledger) -> Result<Expected, Difference> {
    let aim = board.aim;
    let rows = rows_of(heap, board, ledger)?;
    let choices = ways_of(&rows)?;
    let best = best_choice(aim, &rows)?;
    let free = cost_without_limits(aim, &rows)?;
    let places = if choices <= FEW_CHOICES {
        Some(count_fronts(heap, aim, &rows)?)
    } else {
        None
    };
    Ok(Expected {
        aim,
        rows,
        choices,
        best,
        free,
        places,
    })
}

// The byte of the port in the levels buffer; the mark past its end.
fn byte_of(levels: &[u8], port: u64) -> u8 {
    let place = port.saturating_sub(1);
    levels.get(place as usize).copied().unwrap_or(MARK)
}

// The offer of the level that is written for the row.
fn written_offer(row: &CountedRow, levels: &[u8]) -> Result<Offered, Difference> {
    let level = byte_of(levels, row.port);
    row.offer_at(usize::from(level)).ok_or(Difference::Level {
        level,
        port: row.port,
    })
}

// Cost and load of the plan are these.
fn compare_sum(plan: &Plan, sum: &Sum) -> Result<(), Difference> {
    agree_on_cost(plan.toll, sum.toll)?;
    agree(Figure::Load, plan.load, sum.load)
}

impl Expected {
    // The sum of the levels that are written, which are offered and keep every limit.
    fn written_sum(&self, levels: &[u8]) -> Result<Sum, Difference> {
        let mut sum = Sum::nothing(self.aim);
        for row in self.rows.iter() {
            let offer = written_offer(row, levels)?;
            sum = sum.with_offer(self.aim, &offer).ok_or(Difference::Range)?;
            if sum.load > row.limit {
                return Err(Difference::Limit {
                    load: sum.load,
                    limit: row.limit,
                });
            }
        }
        Ok(sum)
    }

    // The bytes of ports without a task are 255, and those behind port 48 are as they were.
    fn compare_bytes(&self, levels: &[u8]) -> Result<(), Difference> {
        for (port, byte) in (1u64..).zip(levels.iter()) {
            if !self.rows.iter().any(|row| row.port == port) {
                let blank = if port > 48 { MARK } else { 255 };
                agree(Figure::Byte, u64::from(*byte), u64::from(blank))?;
            }
        }
        Ok(())
    }

    // The limit of the last row in µs, 0 without a row.
    fn last_limit(&self) -> u64 {
        self.rows.last().map_or(0, |row| row.limit)
    }

    // A given plan is the best choice: its figures, and the levels that are written.
    fn compare_given(&self, plan: &Plan, best: &Sum, levels: &[u8]) -> Result<(), Difference> {
        compare_sum(plan, best)?;
        agree(Figure::Limit, plan.limit, self.last_limit())?;
        compare_sum(plan, &self.written_sum(levels)?)?;
        self.compare_bytes(levels)?;
        if let Some(places) = &self.places {
            agree(Figure::States, plan.states as u64, places.len() as u64)?;
        }
        Ok(())
    }

    // Where none fits, the refusal names the first row whose limit even the smallest loads pass.
    fn none_fits(&self) -> Result<Refusal, Difference> {
        let passed = first_passed(0, &self.rows)?;
        Ok(Refusal {
            number: 32,
            port: passed.unwrap_or(0),
        })
    }

    // The answer to a plan in a list that is long enough agrees with the count.
    pub fn compare(&self, told: &Result<Plan, Refusal>, levels: &[u8]) -> Result<(), Difference> {
        match (told, &self.best) {
            (Ok(plan), Some(best)) => self.compare_given(plan, &best.sum, levels),
            (Err(refusal), Some(_)) => agree_on_answer(Err(*refusal), Ok(())),
            (_, None) => compare_refusal(told, self.none_fits()?, levels),
        }
    }

    // The port of the last row; 0 without a row.
    pub fn last_port(&self) -> u64 {
        self.rows.last().map_or(0, |row| row.port)
    }
}

// The plan was refused with this, and no byte was written.
pub fn compare_refusal(
    told: &Result<Plan, Refusal>,
    counted: Refusal,
    levels: &[u8],
) -> Result<(), Difference> {
    agree_on_answer(told.map(|_| ()), Err(counted))?;
    for byte in levels {
        agree(Figure::Byte, u64::from(*byte), u64::from(MARK))?;
    }
    Ok(())
}
