// Trials at other capacities, which leave the book's own alone.
use crate::cases::{PLACES, periodic_board, print_plan};
use board::processors::Processor;
use book::periodic::PeriodicBook;
use cost::energies::Energy;
use plan_lines::answers::PlanLine;
use plans::states::State;

// The plan at the book's own capacity.
fn print_own(rt: &HostRuntime, book: &PeriodicBook) -> anyhow::Result<()> {
    print_plan::<Energy, PeriodicBook>(rt, "plan", book, PLACES)
}

// A trial at this capacity, in thousandths.
fn print_trial(rt: &HostRuntime, book: &mut PeriodicBook, thousandths: u64) -> anyhow::Result<()> {
    let mut list = [State::<Energy>::blank(); PLACES];
    let mut levels = [0u8; 48];
    let answer = book.trial(thousandths, &mut list, &mut levels);
    let line = PlanLine(&answer, &levels);
    println!(rt; "trial at {thousandths}: {line}")?;
    Ok(())
}

// The same plan before and after three trials, of which two are refused.
pub fn print_trials(rt: &HostRuntime, processor: &Processor) -> anyhow::Result<()> {
    let mut board = periodic_board(processor, 30_000, 500, 1_000)?;
    print_own(rt, &board)?;
    for thousandths in [900, 499, 1_001] {
        print_trial(rt, &mut board, thousandths)?;
    }
    print_own(rt, &board)
}
