// The measures of the example board.
use board::dues::Due;
use board::faults::Fault;
use board::periods::Hyperperiod;
use board::processors::Processor;
use board::tasks::{Task, TaskFigures};
use plan_lines::measures::MeasureTable;

// A periodic task without access energy, for a processor without devices.
fn task(processor: &Processor, port: u64, cycles: u64, period: u64) -> Result<Task, Fault> {
    let figures = TaskFigures {
        cycles,
        access: 0,
        shares: &[],
        due: Due::Period(period),
    };
    Task::new(processor, port, 0, figures)
}

// The hyperperiod with the period of one port more.
fn joined(hyperperiod: &Hyperperiod, port: u64, period: u64) -> Result<Hyperperiod, Fault> {
    hyperperiod.with(period).ok_or(Fault::LongHyperperiod(port))
}

// The hyperperiod of the example board, and a line for each of its ports and levels.
pub fn print_measures(rt: &HostRuntime, processor: &Processor) -> anyhow::Result<()> {
    let tasks = [
        task(processor, 1, 40_000, 1_000)?,
        task(processor, 2, 30_000, 500)?,
    ];
    let alone = joined(&Hyperperiod::of_none(), 1, 1_000)?;
    let table = MeasureTable {
        processor,
        hyperperiod: &joined(&alone, 2, 500)?,
        tasks: &tasks,
    };
    print!(rt; "{table}")?;
    Ok(())
}
