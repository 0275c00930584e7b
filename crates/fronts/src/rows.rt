// The rows of a board, in the order in which their limits are kept.
ghost use Rattle.std.specs.Prelude.{◌≡◌, true};
ghost use Rattle.shortlist.specs.Lists.{listed};
ghost use Rattle.fronts.specs.Rows.{rows_fit};

use crate::row::Row;
use shortlist::lists::ShortList;

pub mod makes;

// At most 48 rows, each with an offered level and a port of its own from 1 to 48.
#[derive(Clone, Copy)]
pub struct Rows {
    rows: ShortList<Row, 48>,
    ghost fit: { rows_fit (listed rows) ≡ true },
}
