// Rows made by hand, for tasks on the ports from 1 on.
use board::dues::Due;
use board::faults::Fault;
use board::offers::Offer;
use board::periods::Hyperperiod;
use board::processors::Processor;
use board::tasks::{Task, TaskFigures};
use fronts::row::Row;
use fronts::rows::Rows;
use std::array;

// Cycles, and a period or a deadline, of a task without access energy.
#[derive(Clone, Copy)]
pub struct Plain {
    pub cycles: u64,
    pub due: Due,
}

// The example board.
pub const EXAMPLE: [Plain; 2] = [
    Plain {
        cycles: 40_000,
        due: Due::Period(1_000),
    },
    Plain {
        cycles: 30_000,
        due: Due::Period(500),
    },
];

// The task, for a processor without devices, at clock 0.
pub fn plain_task(processor: &Processor, port: u64, plain: Plain) -> Result<Task, Fault> {
    let figures = TaskFigures {
        cycles: plain.cycles,
        access: 0,
        shares: &[],
        due: plain.due,
    };
    Task::new(processor, port, 0, figures)
}

// The hyperperiod with the time of one port more; a deadline leaves it as it is.
fn with_due(hyperperiod: &Hyperperiod, port: u64, due: Due) -> Result<Hyperperiod, Fault> {
    match due {
        Due::Deadline(_) => Ok(*hyperperiod),
        Due::Period(period) => hyperperiod.with(period).ok_or(Fault::LongHyperperiod(port)),
    }
}

// The hyperperiod of all tasks.
pub fn joint(tasks: &[Plain]) -> Result<Hyperperiod, Fault> {
    let mut hyperperiod = Hyperperiod::of_none();
    for (port, task) in (1u64..).zip(tasks.iter()) {
        hyperperiod = with_due(&hyperperiod, port, task.due)?;
    }
    Ok(hyperperiod)
}

// How a board is planned: at a capacity in thousandths, or at a clock in µs.
#[derive(Clone, Copy)]
pub enum Setting {
    Capacity(u64),
    Clock(u64),
}

// The limit of a row in µs.
fn limit(setting: Setting, hyperperiod: &Hyperperiod, due: Due) -> u64 {
    match (setting, due) {
        (Setting::Capacity(capacity), _) => capacity.saturating_mul(hyperperiod.micros()) / 1_000,
        (Setting::Clock(clock), Due::Deadline(deadline)) => deadline.saturating_sub(clock),
        (Setting::Clock(_), Due::Period(period)) => period,
    }
}

// What each level offers the task.
fn offers(processor: &Processor, hyperperiod: &Hyperperiod, task: &Task) -> [Option<Offer>; 8] {
    array::from_fn(|level| processor.offer(task, hyperperiod, level))
}

// The rows of the tasks, which stand in the order of their deadlines if they have any.
pub fn rows_of(processor: &Processor, tasks: &[Plain], setting: Setting) -> Result<Rows, Fault> {
    let hyperperiod = joint(tasks)?;
    let mut rows = Rows::none();
    for (port, plain) in (1u64..).zip(tasks.iter()) {
        let task = plain_task(processor, port, *plain)?;
        let row = Row {
            port,
            limit: limit(setting, &hyperperiod, plain.due),
            offers: offers(processor, &hyperperiod, &task),
        };
        if !rows.push(&row) {
            return Err(Fault::NoSuchPort(port));
        }
    }
    Ok(rows)
}
