// Measuring a task at a level.
ghost use Rattle.std.specs.Prelude.{◌≡◌, ◌+◌, ◌*◌, ◌≤◌, true, length};
ghost use Rattle.std.specs.Option.{option_map};
ghost use Rattle.board.specs.Processors.{standby_fits, LevelWithin};
ghost use Rattle.board.specs.Tasks.{shares_fit, period_in_range};
ghost use Rattle.board.specs.Measures.{standby_sum, most_time, counts_in, jobs as jobs_in, offered, measure as measured, belongs as belongs_to, offer_if};
ghost use Rattle.board.specs.Views.{processor_figures, task_figures};

use super::Offer;
use crate::dues::Due;
use crate::levels::Level;
use crate::measures::Measure;
use crate::periods::Hyperperiod;
use crate::processors::Processor;
use crate::tasks::Task;
use crate::tasks::makes::busy_time;

// The draw in µW: 1,000 times the level's power, and of each device its standby power times its share.
fn draw(level: Level, standby: &[u64], shares: &[u64]) -> u64
    requires { (level.mw ≤ 60000) × ((standby_fits standby.now ≡ true) × (shares_fit (length standby.now) shares.now ≡ true)) }
    ensures { result ≡ 1000 * level.mw + standby_sum standby.now shares.now }
{
    let mut draw = 1000 * level.mw;
    for (power, share) in standby.iter().zip(shares) {
        draw += power * share;
    }
    draw
}

// The period divides the hyperperiod; a sporadic task has none.
fn counts_in(due: Due, hyperperiod: u64) -> bool
    requires { period_in_range due ≡ true }
    ensures { result ≡ counts_in hyperperiod due }
{
    match due {
        Due::Period(period) => hyperperiod % period == 0,
        Due::Deadline(_) => true,
    }
}

// How often the task runs in the hyperperiod.
fn jobs(due: Due, hyperperiod: u64) -> u64
    requires { period_in_range due ≡ true }
    ensures { result ≡ jobs_in hyperperiod due }
{
    match due {
        Due::Period(period) => hyperperiod / period,
        Due::Deadline(_) => 1,
    }
}

// The longest busy time at which a level is offered, in µs.
fn most_time(due: Due) -> u64
    ensures { result ≡ most_time due }
{
    match due {
        Due::Period(period) => period,
        Due::Deadline(_) => 60_000_000,
    }
}

// The task is done in time at the level.
fn is_offered(task: &Task, level: Level) -> bool
    requires { LevelWithin level }
    ensures { result ≡ offered (task_figures task.now) level }
{
    busy_time(task.cycles(), level.mhz) <= most_time(task.due())
}

// The task has a share for each device, and a periodic one stands in the hyperperiod.
fn belongs(processor: &Processor, task: &Task, hyperperiod: u64) -> bool
    ensures { result ≡ belongs_to (processor_figures processor.now) (task_figures task.now) hyperperiod }
{
    task.shares().len() == processor.standby().len() && counts_in(task.due(), hyperperiod)
}

// The figures of the task at a level that is offered to it.
fn measure(processor: &Processor, task: &Task, hyperperiod: u64, level: Level) -> Measure
    requires level { LevelWithin level }
    requires shares { length (task_figures task.now).shares ≡ length (processor_figures processor.now).standby }
    requires short { hyperperiod ≤ 60000000 }
    requires taken { offered (task_figures task.now) level ≡ true }
    ensures { result ≡ measured (processor_figures processor.now) (task_figures task.now) hyperperiod level }
{
    let busy = busy_time(task.cycles(), level.mhz);
    let draw = draw(level, processor.standby(), task.shares());
    let jobs = jobs(task.due(), hyperperiod);
    let energy = jobs * (draw * busy + 1000 * task.access());
    let load = jobs * busy;
    Measure {
        busy,
        draw,
        jobs,
        load,
        energy,
    }
}

impl Processor {
    // The measure of the task at a level, if the processor has that level and it is offered. The task
    // has to have a share for each device, and a periodic one to stand in the hyperperiod.
    pub fn offer(&self, task: &Task, hyperperiod: &Hyperperiod, number: usize) -> Option<Offer>
        ensures { option_map (λ o. o.measure) result ≡ offer_if (processor_figures self.now) (task_figures task.now) hyperperiod.now.micros number }
    {
        if !belongs(self, task, hyperperiod.micros()) {
            return None;
        }
        let level = *self.levels().get(number)?;
        if !is_offered(task, level) {
            return None;
        }
        Some(Offer {
            measure: measure(self, task, hyperperiod.micros(), level),
        })
    }
}
