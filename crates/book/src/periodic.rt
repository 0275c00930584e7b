// The periodic book.
ghost use Rattle.std.specs.Prelude.{◌≡◌, true, length};
ghost use Rattle.board.specs.Processors.{between};
ghost use Rattle.board.specs.Views.{processor_figures};
ghost use Rattle.tally.specs.Boards.{periodic_tasks};
ghost use Rattle.book.specs.Tasks.{figures_of};

use crate::capacities::Capacity;
use board::processors::Processor;
use board::tasks::Task;

pub mod calls;
pub mod planning;

// Periodic tasks at the ports of a processor. Each is fit to be planned, and so are all together.
#[derive(Clone, Copy)]
pub struct PeriodicBook {
    processor: Processor,
    // the task of each port, from port 1 on
    tasks: [Option<Task>; 48],
    capacity: Capacity,
    ghost ports: { length tasks ≡ 48 },
    ghost fit: { periodic_tasks (processor_figures processor) (figures_of tasks) ≡ true },
    ghost within: { between 1 1000 capacity.thousandths ≡ true },
}
