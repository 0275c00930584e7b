// All choices of a board's levels, gone through one by one.
use crate::differences::Difference;
use crate::figures::Aim;
use crate::rows::{CountedRow, Offered};
use crate::tolls::Toll;
use std::cmp::Ordering;

// The sum over some rows: cost, and load in µs. The cost is compared before the load.
#[derive(Clone, Copy, PartialEq, Eq, PartialOrd, Ord)]
pub struct Sum {
    pub toll: Toll,
    pub load: u64,
}

impl Sum {
    // The sum over no rows.
    pub fn nothing(aim: Aim) -> Sum {
        Sum {
            toll: aim.nothing(),
            load: 0,
        }
    }

    // With one offer more.
    pub fn with_offer(&self, aim: Aim, offer: &Offered) -> Option<Sum> {
        Some(Sum {
            toll: aim.with_entry(self.toll, offer.entry)?,
            load: self.load.checked_add(offer.load)?,
        })
    }

    // The two differ, and this one is neither heavier nor dearer.
    pub fn beats(&self, other: &Sum) -> bool {
        *self != *other && self.load <= other.load && self.toll <= other.toll
    }
}

// The best of the choices that keep every limit: the cheapest, and at one cost the lightest.
#[derive(Clone, Copy)]
pub struct Best {
    pub sum: Sum,
    // choices with just this cost and load
    pub equals: usize,
    // choices with this cost and a larger load
    pub heavier: usize,
}

impl Best {
    // Of one choice.
    fn of(sum: Sum) -> Best {
        Best {
            sum,
            equals: 1,
            heavier: 0,
        }
    }

    // With one choice more.
    fn with_choice(self, sum: Sum) -> Best {
        let by_toll = sum.toll.cmp(&self.sum.toll);
        let by_load = sum.load.cmp(&self.sum.load);
        match (by_toll, by_load) {
            (Ordering::Less, _) => Best::of(sum),
            (Ordering::Greater, _) => self,
            (Ordering::Equal, Ordering::Less) => Best {
                heavier: self.heavier.saturating_add(self.equals),
                ..Best::of(sum)
            },
            (Ordering::Equal, Ordering::Greater) => Best {
                heavier: self.heavier.saturating_add(1),
                ..self
            },
            (Ordering::Equal, Ordering::Equal) => Best {
                equals: self.equals.saturating_add(1),
                ..self
            },
        }
    }
}

// How many ways there are to give each row one of its offers.
pub fn ways_of(rows: &[CountedRow]) -> Result<usize, Difference> {
    rows.iter()
        .try_fold(1usize, |ways, row| ways.checked_mul(row.offers.len()))
        .ok_or(Difference::Range)
}

// The sum of the way with this number, whose digits, the first row's the lowest, count the offers of the
// rows; none if at some row the loads up to it pass its limit.
pub fn way_at(aim: Aim, rows: &[CountedRow], number: usize) -> Result<Option<Sum>, Difference> {
    let mut rest = number;
    let mut sum = Sum::nothing(aim);
    for row in rows {
        let count = row.offers.len();
        let digit = rest.checked_rem(count).ok_or(Difference::Range)?;
        rest = rest.checked_div(count).ok_or(Difference::Range)?;
        let offer = row.offers.get(digit).ok_or(Difference::Range)?;
        sum = sum.with_offer(aim, offer).ok_or(Difference::Range)?;
        if sum.load > row.limit {
            return Ok(None);
        }
    }
    Ok(Some(sum))
}

// The best of all choices that keep every limit; none if no choice does.
pub fn best_choice(aim: Aim, rows: &[CountedRow]) -> Result<Option<Best>, Difference> {
    let mut best: Option<Best> = None;
    for number in 0..ways_of(rows)? {
        if let Some(sum) = way_at(aim, rows, number)? {
            best = Some(best.map_or(Best::of(sum), |others| others.with_choice(sum)));
        }
    }
    Ok(best)
}

// What the rows would cost at least if they had no limits.
pub fn cost_without_limits(aim: Aim, rows: &[CountedRow]) -> Result<Toll, Difference> {
    rows.iter()
        .try_fold(aim.nothing(), |toll, row| {
            aim.with_entry(toll, row.least_entry(aim))
        })
        .ok_or(Difference::Range)
}
