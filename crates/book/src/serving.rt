// Cycles that are taken off a task.
ghost use Rattle.std.specs.Prelude.{◌≡◌};
ghost use Rattle.board.specs.Processors.{between};
ghost use Rattle.tally.specs.Refusals.{remaining};
ghost use Rattle.book.specs.Tasks.{rest_view, rest_after};

use board::faults::Fault;
use board::tasks::Task;

// So many cycles may be taken: at least one, and no more than remain.
fn cycles_remain(remaining: u64, cycles: u64) -> bool
    ensures { result ≡ between 1 remaining cycles }
{
    (1..=remaining).contains(&cycles)
}

// What is left of the port's task when so many cycles are taken off.
pub(crate) fn rest_of(standing: Option<Task>, port: u64, cycles: u64) -> Result<Option<Task>, Fault>
    ensures { rest_view result ≡ rest_after standing port cycles }
{
    match standing {
        Some(task) => {
            if !cycles_remain(task.cycles(), cycles) {
                return Err(Fault::BadFigure(port));
            }
            Ok(task.served(cycles))
        }
        None => Err(Fault::BadFigure(port)),
    }
}
