// Plans several hundred boards with the library, and compares each plan with a count of all choices.
#![tactic(auto)]

mod answers;
mod asking;
mod beginnings;
mod books;
mod choices;
mod comparing;
mod differences;
mod expected;
mod figures;
mod ledger;
mod making;
mod numbers;
mod places;
mod rows;
mod tolls;
mod totals;

use crate::books::Book;
use crate::comparing::{Extras, compare_board};
use crate::differences::Difference;
use crate::figures::{Aim, Board, Rule};
use crate::making::make_board;
use crate::numbers::Numbers;
use crate::totals::Totals;
use anyhow::anyhow;
use book::periodic::PeriodicBook;
use book::sporadic::SporadicBook;
use cost::energies::Energy;
use cost::pairs::Pair;
use cost::peaks::Peak;
use kindtest::Hot;
use std::alloc::Global;

// how many boards are planned: the same number of each rule and aim
const BOARDS: u64 = 960;

// the numbers of every run follow from it
const SEED: u64 = 48;

// The rule of the board with this number.
fn rule_of(number: u64) -> Rule {
    match number % 2 {
        0 => Rule::Periodic,
        _ => Rule::Sporadic,
    }
}

// The aim of the board with this number.
fn aim_of(number: u64) -> Aim {
    match number / 2 % 4 {
        0 => Aim::Energy,
        1 => Aim::Peak,
        2 => Aim::Both,
        _ => Aim::Hot,
    }
}

// What is asked of the board's book besides its plan.
fn make_extras(numbers: &mut Numbers, rule: Rule) -> Extras {
    let lists = numbers.once_in(2);
    let buffer = numbers.once_in(20);
    let thousandths = numbers.pick(&[1_000, 900, 750, 600, 500, 300, 1, 0, 1_001]);
    let trial = match rule {
        Rule::Periodic if numbers.once_in(3) => Some(thousandths),
        _ => None,
    };
    Extras {
        lists,
        trial,
        buffer,
    }
}

// Compares the board in a book of its rule, under its kind of cost.
fn compare_in<B: Book>(
    heap: Global,
    board: &Board,
    extras: &Extras,
    totals: &mut Totals,
) -> Result<(), Difference> {
    match board.aim {
        Aim::Energy => compare_board::<Energy, B>(heap, board, extras, totals),
        Aim::Peak => compare_board::<Peak, B>(heap, board, extras, totals),
        Aim::Both => compare_board::<Pair<Energy, Peak>, B>(heap, board, extras, totals),
        Aim::Hot => compare_board::<Hot, B>(heap, board, extras, totals),
    }
}

// Makes the next board, and compares it.
fn compare_next(
    heap: Global,
    numbers: &mut Numbers,
    number: u64,
    totals: &mut Totals,
) -> Result<(), Difference> {
    let rule = rule_of(number);
    let board = make_board(heap, numbers, rule, aim_of(number))?;
    let extras = make_extras(numbers, rule);
    match rule {
        Rule::Periodic => compare_in::<PeriodicBook>(heap, &board, &extras, totals),
        Rule::Sporadic => compare_in::<SporadicBook>(heap, &board, &extras, totals),
    }
}

fn run(rt: &HostRuntime) -> anyhow::Result<()> {
    let mut numbers = Numbers::from_seed(SEED);
    let mut totals = Totals::none();
    for number in 0..BOARDS {
        compare_next(rt.alloc(), &mut numbers, number, &mut totals).map_err(|difference| anyhow!(
            "board {number}: {difference}"
        ))?;
    }
    totals.print(rt)?;
    println!(rt; "all {BOARDS} boards agree")?;
    Ok(())
}

fn main(rt: HostRuntime) -> anyhow::Result<()> {
    run(&rt)
}
