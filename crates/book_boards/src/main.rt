// Measures the example board, plans the fourteen boards with known plans through their books, tries other
// capacities, and lives two lives of each book.
#![tactic(auto)]

mod cases;
mod measures;
mod trials;
mod two_lives;

use crate::cases::print_cases;
use crate::measures::print_measures;
use crate::trials::print_trials;
use crate::two_lives::print_lives;
use board::levels::Level;
use board::processors::Processor;

fn run(rt: &HostRuntime) -> anyhow::Result<()> {
    let levels = [Level { mhz: 100, mw: 100 }, Level { mhz: 200, mw: 300 }];
    let processor = Processor::new(&levels, &[])?;
    print_measures(rt, &processor)?;
    print_cases(rt, &processor)?;
    print_trials(rt, &processor)?;
    print_lives(rt, &processor)
}

fn main(rt: HostRuntime) -> anyhow::Result<()> {
    run(&rt)
}
