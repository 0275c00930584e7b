// What a task does at a level.

// The figures of one task at one level of one processor.
#[derive(Clone, Copy)]
pub struct Measure {
    // time of one job, in µs
    pub busy: u64,
    // draw while it runs, in µW
    pub draw: u64,
    // jobs in the hyperperiod
    pub jobs: u64,
    // time of all jobs, in µs
    pub load: u64,
    // energy of all jobs, in pJ
    pub energy: u64,
}
