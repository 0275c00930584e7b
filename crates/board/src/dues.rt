// When a task has to be done.

// The period of a periodic task, which is its deadline too, or the one deadline of a sporadic task
// on the clock of its book: both in µs.
#[derive(Clone, Copy)]
pub enum Due {
    Period(u64),
    Deadline(u64),
}
