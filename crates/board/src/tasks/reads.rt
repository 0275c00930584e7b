// Reading a task.
ghost use Rattle.std.specs.Prelude.{◌≡◌};
ghost use Rattle.board.specs.Views.{task_figures};

use super::Task;
use crate::dues::Due;

impl Task {
    pub fn cycles(&self) -> u64
        ensures { result ≡ (task_figures self.now).cycles }
    {
        self.cycles
    }

    // The energy of one job's accesses, in nJ.
    pub fn access(&self) -> u64
        ensures { result ≡ (task_figures self.now).access }
    {
        self.access
    }

    // The share of each device, in thousandths.
    pub fn shares(&self) -> &[u64]
        ensures { result.now ≡ (task_figures self.now).shares }
    {
        self.shares.items()
    }

    pub fn due(&self) -> Due
        ensures { result ≡ (task_figures self.now).due }
    {
        self.due
    }
}
