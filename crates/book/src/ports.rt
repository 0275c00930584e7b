// Ports and the tasks that stand at them.
ghost use Rattle.std.specs.Prelude.{◌≡◌, ◌<◌, length, None, slice_set};
ghost use Rattle.tally.specs.Refusals.{a_port};
ghost use Rattle.book.specs.Tasks.{task_at_port, free_place, taken_place};

use board::faults::Fault;
use board::tasks::Task;

// The number is a port's.
fn is_port(port: u64) -> bool
    ensures { result ≡ a_port port }
{
    (1..=48).contains(&port)
}

// The task of the port, if it has one.
pub(crate) fn task_at(tasks: &[Option<Task>; 48], port: u64) -> Option<Task>
    ensures { result ≡ task_at_port tasks.now port }
{
    if !is_port(port) {
        return None;
    }
    tasks[(port - 1) as usize]
}

// The place of a port that has no task.
pub(crate) fn free_place(tasks: &[Option<Task>; 48], port: u64) -> Result<usize, Fault>
    ensures { result ≡ free_place tasks.now port }
{
    if !is_port(port) {
        return Err(Fault::NoSuchPort(port));
    }
    let place = (port - 1) as usize;
    match &tasks[place] {
        Some(_) => Err(Fault::PortTaken(port)),
        None => Ok(place),
    }
}

// The place of a port that has a task.
pub(crate) fn taken_place(tasks: &[Option<Task>; 48], port: u64) -> Result<usize, Fault>
    ensures { result ≡ taken_place tasks.now port }
{
    let standing = task_at(tasks, port);
    if !is_port(port) {
        return Err(Fault::NoSuchPort(port));
    }
    let place = (port - 1) as usize;
    match standing {
        Some(_) => Ok(place),
        None => Err(Fault::PortFree(port)),
    }
}

// The tasks without the one at the place.
pub(crate) fn without(tasks: &[Option<Task>; 48], place: usize) -> [Option<Task>; 48]
    requires { place < length tasks.now }
    ensures { result ≡ slice_set tasks.now place None }
{
    let mut left = *tasks;
    left[place] = None;
    left
}
