// Taking cycles off a task.
ghost use Rattle.std.specs.Prelude.{◌≡◌};
ghost use Rattle.std.specs.Option.{option_map};
ghost use Rattle.board.specs.Tasks.{served as rest};
ghost use Rattle.board.specs.Views.{task_figures};

use super::Task;

impl Task {
    // The task with so many cycles less; none if no cycles are taken, or none would be left.
    pub fn served(&self, cycles: u64) -> Option<Task>
        ensures { option_map task_figures result ≡ rest cycles (task_figures self.now) }
    {
        if !(1..self.cycles).contains(&cycles) {
            return None;
        }
        // each field by itself: `..*self` is not covered in a struct with ghost fields
        Some(Task {
            cycles: self.cycles - cycles,
            access: self.access,
            shares: self.shares,
            due: self.due,
        })
    }
}
