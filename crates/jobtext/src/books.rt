// The book of a job.
use book::periodic::PeriodicBook;
use book::sporadic::SporadicBook;

mod makes;

// A book of the rule that the job's header names.
#[derive(Clone, Copy)]
pub enum Book {
    Periodic(PeriodicBook),
    Sporadic(SporadicBook),
}
