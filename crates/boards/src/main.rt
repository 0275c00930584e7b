// Measures the example board, and prints a line for each port and level, with its price under each kind.
// Then plans the fourteen boards with known plans, and lives two lives of each book.
#![tactic(auto)]

mod cases;
mod rows;
mod two_lives;

use crate::cases::print_cases;
use crate::rows::{EXAMPLE, joint, plain_task};
use crate::two_lives::print_lives;
use board::levels::Level;
use board::processors::Processor;
use plan_lines::measures::MeasureTable;

// The hyperperiod of the example board, and a line for each of its ports and levels.
fn print_measures(rt: &HostRuntime, processor: &Processor) -> anyhow::Result<()> {
    let [first, second] = EXAMPLE;
    let tasks = [
        plain_task(processor, 1, first)?,
        plain_task(processor, 2, second)?,
    ];
    let table = MeasureTable {
        processor,
        hyperperiod: &joint(&EXAMPLE)?,
        tasks: &tasks,
    };
    print!(rt; "{table}")?;
    Ok(())
}

fn run(rt: &HostRuntime) -> anyhow::Result<()> {
    let levels = [Level { mhz: 100, mw: 100 }, Level { mhz: 200, mw: 300 }];
    let processor = Processor::new(&levels, &[])?;
    print_measures(rt, &processor)?;
    print_cases(rt, &processor)?;
    print_lives(rt, &processor)
}

fn main(rt: HostRuntime) -> anyhow::Result<()> {
    run(&rt)
}
