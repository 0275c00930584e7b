// The task that a caller names for a port.
ghost use Rattle.std.specs.Prelude.{◌≡◌};
ghost use Rattle.board.specs.Tasks.{judged};
ghost use Rattle.board.specs.Views.{processor_figures, task_view};
ghost use Rattle.book.specs.Tasks.{task_of};

use board::dues::Due;
use board::faults::Fault;
use board::processors::Processor;
use board::tasks::{Task, TaskFigures};

// A task that is due as said, at this time of the clock, in µs.
pub(crate) fn task_named(
    processor: &Processor,
    port: u64,
    clock: u64,
    cycles: u64,
    access: u64,
    shares: &[u64],
    due: Due,
) -> Result<Task, Fault>
    ensures { task_view result ≡ judged (processor_figures processor.now) port clock (task_of cycles access shares.now due) }
{
    let figures = TaskFigures {
        cycles,
        access,
        shares,
        due,
    };
    Task::new(processor, port, clock, figures)
}
