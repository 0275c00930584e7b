// Boards made of numbers: the processor, and the calls that fill its book.
use crate::asking::Plot;
use crate::differences::Difference;
use crate::figures::{Aim, Board, Rule, top_mhz};
use crate::numbers::Numbers;
use board::levels::Level;
use std::alloc::Global;

// a board has no more choices than this
const MOST_CHOICES: u64 = 50_000;

// a board has no more tasks than this
const MOST_ASKS: u32 = 7;

// How the figures of a board hang together.
#[derive(Clone, Copy)]
pub enum Family {
    // power as the speed, and cycles that every speed divides: without shares all levels take the same energy
    Even,
    // power as the square of the speed, and times in tens of µs
    Steep,
    // no figure follows from another
    Loose,
    // figures up to the ends of their ranges
    Vast,
}

impl Family {
    // A level one number up: speed in MHz and power in mW rise, the power by the factor.
    fn next_level(self, numbers: &mut Numbers, count: u64, factor: u64, below: Level) -> Level {
        match self {
            Family::Even => Level {
                mhz: count.saturating_mul(100),
                mw: count.saturating_mul(1_500).saturating_mul(factor),
            },
            Family::Steep => Level {
                mhz: count.saturating_mul(100),
                mw: count
                    .saturating_mul(count)
                    .saturating_mul(200)
                    .saturating_mul(factor),
            },
            Family::Vast => Level {
                mhz: count.saturating_mul(500),
                mw: count.saturating_mul(7_500),
            },
            Family::Loose => Level {
                mhz: below.mhz.saturating_add(numbers.up_to(500)),
                mw: below
                    .mw
                    .saturating_add(numbers.up_to(factor.saturating_mul(1_800))),
            },
        }
    }
}

// 1 to 8 levels.
fn make_levels(
    heap: Global,
    numbers: &mut Numbers,
    family: Family,
) -> Result<Vec<Level>, Difference> {
    let most = numbers.up_to(8);
    let factor = numbers.pick(&[1, 2, 4]);
    let mut levels = Vec::new(heap);
    let mut level = Level { mhz: 0, mw: 0 };
    for count in 1..=most {
        level = family.next_level(numbers, count, factor, level);
        levels.push(level)?;
    }
    Ok(levels)
}

// The standby power of 0 to 3 devices, in mW.
fn make_standby(heap: Global, numbers: &mut Numbers) -> Result<Vec<u64>, Difference> {
    let count = numbers.below(4);
    let mut standby = Vec::new(heap);
    for _ in 0..count {
        standby.push(numbers.pick(&[0, 200, 1_000, 2_500, 5_000]))?;
    }
    Ok(standby)
}

// The most tasks of so many levels each that have no more choices than a board may have.
fn most_asks(levels: u64) -> u64 {
    (1..=MOST_ASKS)
        .take_while(|asks| levels.saturating_pow(*asks) <= MOST_CHOICES)
        .last()
        .map_or(0, u64::from)
}

fn make_family(numbers: &mut Numbers) -> Family {
    match numbers.below(10) {
        0..=2 => Family::Even,
        3..=5 => Family::Steep,
        6 => Family::Vast,
        _ => Family::Loose,
    }
}

// The next board of this rule and aim.
pub fn make_board(
    heap: Global,
    numbers: &mut Numbers,
    rule: Rule,
    aim: Aim,
) -> Result<Board, Difference> {
    let family = make_family(numbers);
    let levels = make_levels(heap, numbers, family)?;
    let standby = make_standby(heap, numbers)?;
    let most = most_asks(levels.len() as u64);
    let plot = Plot {
        rule,
        family,
        top_mhz: top_mhz(&levels),
        devices: standby.len(),
        asks: numbers.up_to(most).max(numbers.up_to(most)),
    };
    let steps = plot.make_steps(heap, numbers)?;
    Ok(Board {
        rule,
        aim,
        levels,
        standby,
        steps,
    })
}
