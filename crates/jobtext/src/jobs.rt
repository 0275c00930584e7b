// A job: a text, of which one call is taken at a time.
ghost use Rattle.std.specs.Prelude.{◌≡◌, ◌+◌, ◌≤◌, length};
ghost use Rattle.jobtext.specs.Books.{book_view};

use crate::books::Book;
use cost::energies::Energy;
use cost::pairs::Pair;
use cost::peaks::Peak;
use plantext::faults::JobFault;
use std::marker::PhantomData;

mod opens;
mod turns;

pub use opens::open;

// How far the calls of a text are read, and the book that they were made in.
#[derive(Clone, Copy)]
pub(crate) struct Going {
    // the bytes of the text that are read
    at: usize,
    // the number of the next line
    line: u64,
    devices: usize,
    book: Book,
    ghost some: { 1 ≤ line },
    ghost few: { line ≤ at + 1 },
    ghost all_devices: { devices ≡ length (book_view book).figures.processor.standby },
    ghost few_devices: { devices ≤ 8 },
}

// How far a job has come. An enum of its own: in an option of a result the faulty header, which is still to
// be answered, would be an error of something that was tried.
#[derive(Clone, Copy)]
pub(crate) enum Stage {
    // nothing more is read
    Over,
    // the header is faulty, which the first call answers
    Faulty(JobFault),
    Going(Going),
}

// A job that is planned by the kind K. It holds no part of the text, which is lent to it at each call.
#[derive(Drop)]
pub struct Job<K> {
    stage: Stage,
    kind: PhantomData<K>,
}

// The job of a text, of the kind that its header names.
#[derive(Drop)]
pub enum Opened {
    Energy(Job<Energy>),
    Peak(Job<Peak>),
    Both(Job<Pair<Energy, Peak>>),
}
