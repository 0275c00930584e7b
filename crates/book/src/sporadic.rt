// The sporadic book.
ghost use Rattle.std.specs.Prelude.{◌≡◌, true, length};
ghost use Rattle.board.specs.Views.{processor_figures};
ghost use Rattle.tally.specs.Boards.{sporadic_tasks};
ghost use Rattle.book.specs.Tasks.{figures_of};

use board::processors::Processor;
use board::tasks::Task;

pub mod calls;
pub mod planning;

// Sporadic tasks at the ports of a processor, and a clock. Each task is fit to be planned.
#[derive(Clone, Copy)]
pub struct SporadicBook {
    processor: Processor,
    // the task of each port, from port 1 on
    tasks: [Option<Task>; 48],
    // in µs
    clock: u64,
    ghost ports: { length tasks ≡ 48 },
    ghost fit: { sporadic_tasks (processor_figures processor) (figures_of tasks) ≡ true },
}
