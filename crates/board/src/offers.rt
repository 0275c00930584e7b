// What a level offers a task.
ghost use Rattle.board.specs.Measures.{Offered};

use crate::measures::Measure;

pub mod makes;

// The measure of a task at a level that is offered to it.
#[derive(Clone, Copy)]
pub struct Offer {
    pub measure: Measure,
    ghost offered: { Offered measure },
}
