// A task: what a port has to do, fixed once it is made.
ghost use Rattle.std.specs.Prelude.{◌≡◌, ◌≤◌, true, length};
ghost use Rattle.shortlist.specs.Lists.{listed};
ghost use Rattle.board.specs.Tasks.{shares_fit, period_in_range};

use crate::dues::Due;
use shortlist::lists::ShortList;

pub mod makes;
pub mod reads;
pub mod serves;

// What a caller says of a task, in figures of any size.
#[derive(Clone, Copy)]
pub struct TaskFigures<'a> {
    pub cycles: u64,
    // energy of one job's accesses, in nJ
    pub access: u64,
    // share of its running time that each device is in use, in thousandths
    pub shares: &'a [u64],
    pub due: Due,
}

#[derive(Clone, Copy)]
pub struct Task {
    cycles: u64,
    access: u64,
    // of each device, in thousandths
    shares: ShortList<u64, 8>,
    due: Due,
    ghost some: { 1 ≤ cycles },
    ghost bounded: { cycles ≤ 1000000000 },
    ghost modest: { access ≤ 1000000 },
    ghost shared: { shares_fit (length (listed shares)) (listed shares) ≡ true },
    ghost timed: { period_in_range due ≡ true },
}
