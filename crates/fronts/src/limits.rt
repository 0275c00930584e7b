// Which sums of loads the limits leave open.
ghost use Rattle.std.specs.Prelude.{◌≡◌, ℕ, ◌<◌, ◌≤◌, length, slice_index, slice_index_or};
ghost use Rattle.plans.specs.Choices.{smallest as smallest_load};
ghost use Rattle.plans.specs.Plans.{none_fits};
ghost use Rattle.fronts.specs.declared.row.Row.{Row};
ghost use Rattle.fronts.specs.Rows.{offers_from, rows_of, lesser, bound_at};
ghost use Rattle.fronts.specs.Views.{listed_rows};

use crate::rows::Rows;
use board::faults::Fault;
use board::offers::Offer;
use cost::kinds::Kind;

// The lesser of a figure and the least so far, in µs.
fn lesser_of(least: Option<u64>, figure: u64) -> u64
    ensures { result ≡ lesser least figure }
{
    least.map_or(figure, |other| figure.min(other))
}

// The smallest load that a row offers, in µs.
pub(crate) fn smallest<K: Kind>(offers: &[Option<Offer>; 8]) -> u64
    ensures value { result ≡ smallest_load (offers_from K.Kind.meaning offers.now 0 8) }
    ensures bound { result ≤ 60000000 }
{
    let mut least: Option<u64> = None;
    for offer in offers.iter().rev() {
        if let Some(offered) = offer {
            least = Some(lesser_of(least, offered.measure.load));
        }
    }
    least.unwrap_or(0)
}

// The fault of a board on which the smallest loads pass a limit, with the port of the first such row.
pub(crate) fn passed_limit<K: Kind>(rows: &Rows) -> Option<Fault>
    ensures { result ≡ none_fits 0 (rows_of K.Kind.meaning (listed_rows rows.now)) }
{
    let mut sum = 0;
    for row in rows.rows() {
        sum += smallest::<K>(&row.offers);
        if sum > row.limit {
            return Some(Fault::NoneFits(row.port));
        }
    }
    None
}

// The largest sum of loads that a row admits, in µs: its own limit, or what the later rows leave.
fn admitted(left: Option<u64>, limit: u64) -> u64
    ensures { result ≡ lesser left limit }
{
    lesser_of(left, limit)
}

// For each row the largest sum of loads that it admits, in µs. What stands behind the rows' own
// places is of no meaning.
pub(crate) fn bounds<K: Kind>(rows: &Rows) -> [u64; 48]
    ensures { (i : ℕ) (row : Row) → i < length (listed_rows rows.now) → row ≡ slice_index_or (listed_rows rows.now) i row → slice_index result i ≡ bound_at K.Kind.meaning (listed_rows rows.now) i row }
{
    let mut bounds = [0u64; 48];
    // what the later rows leave, if there are any
    let mut left: Option<u64> = None;
    for (i, row) in rows.rows().iter().enumerate().rev() {
        let bound = admitted(left, row.limit);
        bounds[i] = bound;
        left = Some(bound.saturating_sub(smallest::<K>(&row.offers)));
    }
    bounds
}
