// The hyperperiod of the tasks of a periodic book.
ghost use Rattle.std.specs.Prelude.{◌≡◌, true};
ghost use Rattle.std.specs.Option.{option_map};
ghost use Rattle.board.specs.Views.{task_figures};
ghost use Rattle.plans.specs.Boards.{due_time, standing, joint_period};
ghost use Rattle.book.specs.Tasks.{figures_of, each_period, if_short, joined_with};

use board::dues::Due;
use board::periods::Hyperperiod;
use board::tasks::Task;

// The period or the deadline, in µs.
pub(crate) fn due_time(due: Due) -> u64
    ensures { result ≡ due_time due }
{
    match due {
        Due::Period(period) => period,
        Due::Deadline(deadline) => deadline,
    }
}

// The hyperperiod with one port more, which may have a task; none if it passes 60,000,000 µs.
fn joined(hyperperiod: &Hyperperiod, standing: Option<Task>) -> Option<Hyperperiod>
    ensures { option_map (λ h. h.micros) result ≡ joined_with hyperperiod.now.micros (option_map task_figures standing) }
{
    match standing {
        Some(task) => hyperperiod.with(due_time(task.due())),
        None => Some(*hyperperiod),
    }
}

// The hyperperiod of the tasks that stand; none if it passes 60,000,000 µs.
pub(crate) fn hyperperiod_of(tasks: &[Option<Task>]) -> Option<Hyperperiod>
    requires { each_period (figures_of tasks.now) ≡ true }
    ensures { option_map (λ h. h.micros) result ≡ if_short (joint_period (standing 1 (figures_of tasks.now))) }
{
    let mut joint = Hyperperiod::of_none();
    for standing in tasks.iter().rev() {
        joint = joined(&joint, *standing)?;
    }
    Some(joint)
}
