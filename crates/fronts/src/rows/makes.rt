// Making a list of rows.
ghost use Rattle.std.specs.Prelude.{◌≡◌, ◌&&◌, [], ◌∷◌, ◌++◌, length, if◌then◌else◌, nat_lt};
ghost use Rattle.fronts.specs.Rows.{nothing_offered, port_free, row_fits};
ghost use Rattle.fronts.specs.Views.{listed_rows};

use super::Rows;
use crate::row::Row;
use board::offers::Offer;
use shortlist::lists::ShortList;

// No level is offered.
fn nothing_offered(offers: &[Option<Offer>; 8]) -> bool
    ensures { result ≡ nothing_offered offers.now }
{
    offers.iter().all(Option::is_none)
}

// None of the first rows has the port.
fn port_free(rows: &[Row], port: u64) -> bool
    ensures { result ≡ port_free port rows.now }
{
    rows.iter().all(|row| row.port != port)
}

// The row may stand behind the others.
fn row_fits(rows: &[Row], row: &Row) -> bool
    ensures { result ≡ row_fits rows.now row.now }
{
    (1..=48).contains(&row.port) && !nothing_offered(&row.offers) && port_free(rows, row.port)
}

// What stands in the places that no row has taken. A function of its own: a fill that is spelled out where
// the places are filled is compiled to a store for each of its words and places, which runs slowly.
fn no_row() -> Row {
    Row {
        port: 0,
        limit: 0,
        offers: [None; 8],
    }
}

impl Rows {
    // No rows.
    pub fn none() -> Rows
        ensures { listed_rows result ≡ [] }
    {
        let nothing = no_row();
        Rows {
            rows: ShortList::none(nothing),
        }
    }

    // One row more, behind the others. False, and nothing changed, if there are 48 already, no level
    // is offered, or the port is not a free one from 1 to 48.
    pub fn push(&mut self, row: &Row) -> bool
        ensures answer { result ≡ (nat_lt (length (listed_rows self.old)) 48 && row_fits (listed_rows self.old) row.now) }
        ensures rows { listed_rows self.new ≡ (if result then listed_rows self.old ++ row.now ∷ [] else listed_rows self.old) }
    {
        if self.rows().len() >= 48 {
            return false;
        }
        row_fits(self.rows(), row) && self.rows.push(*row)
    }

    // The rows, from the first on.
    pub fn rows(&self) -> &[Row]
        ensures { result.now ≡ listed_rows self.now }
    {
        self.rows.items()
    }
}
