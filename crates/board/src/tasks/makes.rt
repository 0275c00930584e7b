// Judging figures and making a task of them.
ghost use Rattle.std.specs.Prelude.{◌≡◌, ◌≤◌};
ghost use Rattle.board.specs.Processors.{ProcessorFigures};
ghost use Rattle.board.specs.Tasks.{FiguresOfTask, figures_fit, due_fits, quick_enough, time_left, busy_time, judged};
ghost use Rattle.board.specs.Views.{processor_figures, task_view, named_figures};

use super::{Task, TaskFigures};
use crate::dues::Due;
use crate::faults::Fault;
use crate::periods::period_fits;
use crate::processors::Processor;
use crate::ranges::each_at_most;
use shortlist::lists::ShortList;

// Cycles over MHz, rounded up: the time in µs.
pub(crate) fn busy_time(cycles: u64, mhz: u64) -> u64
    requires { (1 ≤ mhz) × ((mhz ≤ 4000) × (cycles ≤ 1000000000)) }
    ensures { result ≡ busy_time cycles mhz }
{
    (cycles + mhz - 1) / mhz
}

// The period is in range, or the deadline is 1 to 60,000,000 µs after the clock.
fn due_fits(due: Due, clock: u64) -> bool
    ensures { result ≡ due_fits clock due }
{
    match due {
        Due::Period(period) => period_fits(period),
        Due::Deadline(deadline) => clock < deadline && deadline - clock <= 60_000_000,
    }
}

// The period, or the time to the deadline.
fn time_left(due: Due, clock: u64) -> u64
    ensures { result ≡ time_left clock due }
{
    match due {
        Due::Period(period) => period,
        Due::Deadline(deadline) => deadline.saturating_sub(clock),
    }
}

// Cycles, access and shares are in range, with one share for each device.
fn figures_fit(processor: &Processor, figures: TaskFigures) -> bool
    ensures { result ≡ figures_fit (processor_figures processor.now) (named_figures figures.entry) }
{
    let count = processor.standby().len();
    1 <= figures.cycles
        && figures.cycles <= 1_000_000_000
        && figures.access <= 1_000_000
        && figures.shares.len() == count
        && each_at_most(figures.shares, 1000)
}

// At the top level the task is done in the time left.
fn quick_enough(processor: &Processor, clock: u64, figures: TaskFigures) -> bool
    requires { figures.cycles ≤ 1000000000 }
    ensures { result ≡ quick_enough (processor_figures processor.now) clock (named_figures figures.entry) }
{
    let levels = processor.levels();
    let top = levels[levels.len() - 1];
    busy_time(figures.cycles, top.mhz) <= time_left(figures.due, clock)
}

impl Task {
    // The task that a port asks for at this time of the clock, in µs.
    pub fn new(
        processor: &Processor,
        port: u64,
        clock: u64,
        figures: TaskFigures,
    ) -> Result<Task, Fault>
        ensures { task_view result ≡ judged (processor_figures processor.now) port clock (named_figures figures.entry) }
    {
        let shares = ShortList::of(figures.shares, 0).ok_or(Fault::BadFigure(port))?;
        if !figures_fit(processor, figures) {
            return Err(Fault::BadFigure(port));
        }
        if !due_fits(figures.due, clock) {
            return Err(Fault::BadTime(port));
        }
        if !quick_enough(processor, clock, figures) {
            return Err(Fault::TooSlow(port));
        }
        Ok(Task {
            cycles: figures.cycles,
            access: figures.access,
            shares,
            due: figures.due,
        })
    }
}
