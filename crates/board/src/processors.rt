// A processor: clock levels and devices, fixed once it is made.
ghost use Rattle.std.specs.Prelude.{◌≡◌, true};
ghost use Rattle.shortlist.specs.Lists.{listed};
ghost use Rattle.board.specs.Processors.{levels_fit, standby_fits};

use crate::levels::Level;
use shortlist::lists::ShortList;

pub mod makes;
pub mod reads;

#[derive(Clone, Copy)]
pub struct Processor {
    levels: ShortList<Level, 8>,
    // standby power of each device, in mW
    standby: ShortList<u64, 8>,
    ghost levels_fit: { levels_fit (listed levels) ≡ true },
    ghost standby_fits: { standby_fits (listed standby) ≡ true },
}
