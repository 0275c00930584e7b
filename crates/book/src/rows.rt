// The rows of standing tasks, as the planner takes them.
ghost use Rattle.std.specs.Prelude.{◌≡◌, ◌≤◌, true, map, length};
ghost use Rattle.std.specs.List.{range_with_len};
ghost use Rattle.board.specs.Measures.{offer_if};
ghost use Rattle.board.specs.Views.{processor_figures, task_figures};
ghost use Rattle.tally.specs.Boards.{periodic_tasks, sporadic_tasks};
ghost use Rattle.plans.specs.Boards.{joint_period, periodic_limit as limit_of, sporadic_limit as time_to, standing};
ghost use Rattle.fronts.specs.Views.{listed_rows};
ghost use Rattle.book.specs.Tasks.{figures_of};
ghost use Rattle.book.specs.Rows.{measures_of, plain_row, standing_row, periodic_plain_rows, sporadic_plain_rows};

use crate::periods::hyperperiod_of;
use crate::ports::task_at;
use crate::turns::turns_of;
use board::offers::Offer;
use board::periods::Hyperperiod;
use board::processors::Processor;
use board::tasks::Task;
use fronts::row::Row;
use fronts::rows::Rows;
use std::array;

// What each level offers the task.
pub(crate) fn offers(
    processor: &Processor,
    task: &Task,
    hyperperiod: &Hyperperiod,
) -> [Option<Offer>; 8]
    ensures { measures_of result ≡ map (offer_if (processor_figures processor.now) (task_figures task.now) hyperperiod.now.micros) (range_with_len 0 8) }
{
    array::from_fn(|number| processor.offer(task, hyperperiod, number))
}

// The limit of each periodic row: the hyperperiod times the capacity, rounded down to whole µs.
pub(crate) fn periodic_limit(hyperperiod: u64, thousandths: u64) -> u64
    requires { (hyperperiod ≤ 60000000) × (thousandths ≤ 1000) }
    ensures { result ≡ limit_of hyperperiod thousandths }
{
    hyperperiod * thousandths / 1000
}

// The rows of the tasks that stand, by port, all with one limit.
fn rows_by_port(
    processor: &Processor,
    tasks: &[Option<Task>; 48],
    hyperperiod: &Hyperperiod,
    limit: u64,
) -> Rows
    requires fit { periodic_tasks (processor_figures processor.now) (figures_of tasks.now) ≡ true }
    requires joint { hyperperiod.now.micros ≡ joint_period (standing 1 (figures_of tasks.now)) }
    ensures { map plain_row (listed_rows result) ≡ map (standing_row (processor_figures processor.now) (joint_period (standing 1 (figures_of tasks.now))) limit) (standing 1 (figures_of tasks.now)) }
{
    let mut rows = Rows::none();
    for (place, entry) in tasks.iter().enumerate() {
        if let Some(task) = entry {
            let offers = offers(processor, task, hyperperiod);
            let port = place as u64 + 1;
            let _ = rows.push(&Row {
                port,
                limit,
                offers,
            });
        }
    }
    rows
}

// The rows of a periodic book at a capacity in thousandths.
pub(crate) fn periodic_rows(
    processor: &Processor,
    tasks: &[Option<Task>; 48],
    thousandths: u64,
) -> Rows
    requires fit { periodic_tasks (processor_figures processor.now) (figures_of tasks.now) ≡ true }
    requires within { thousandths ≤ 1000 }
    ensures { map plain_row (listed_rows result) ≡ periodic_plain_rows (processor_figures processor.now) thousandths (standing 1 (figures_of tasks.now)) }
{
    match hyperperiod_of(tasks) {
        Some(hyperperiod) => {
            let limit = periodic_limit(hyperperiod.micros(), thousandths);
            rows_by_port(processor, tasks, &hyperperiod, limit)
        }
        None => unreachable(),
    }
}

// The limit of a sporadic row: the time from the clock to the deadline, 0 once that is reached.
fn sporadic_limit(deadline: u64, clock: u64) -> u64
    ensures { result ≡ time_to deadline clock }
{
    deadline.saturating_sub(clock)
}

// The rows of a sporadic book at this time of its clock, by deadline and then port.
pub(crate) fn sporadic_rows(processor: &Processor, tasks: &[Option<Task>; 48], clock: u64) -> Rows
    requires fit { sporadic_tasks (processor_figures processor.now) (figures_of tasks.now) ≡ true }
    ensures { map plain_row (listed_rows result) ≡ sporadic_plain_rows (processor_figures processor.now) clock (standing 1 (figures_of tasks.now)) }
{
    let once = Hyperperiod::of_none();
    let mut rows = Rows::none();
    for turn in turns_of(tasks).items() {
        if let Some(task) = task_at(tasks, turn.port) {
            let offers = offers(processor, &task, &once);
            let limit = sporadic_limit(turn.deadline, clock);
            let _ = rows.push(&Row {
                port: turn.port,
                limit,
                offers,
            });
        }
    }
    rows
}
