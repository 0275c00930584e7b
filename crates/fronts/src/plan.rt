// The plan of a board's rows.
ghost use Rattle.std.specs.Prelude.{◌≡◌, ℕ, ◌+◌, ◌^◌, ◌<◌, ◌≤◌, T, length, None, Ok, slice_index, slice_index_or};
ghost use Rattle.plans.specs.Choices.{fits as loads_fit};
ghost use Rattle.fronts.specs.ByLevel.{by_level};
ghost use Rattle.fronts.specs.declared.row.Row.{Row};
ghost use Rattle.fronts.specs.Rows.{rows_of, bound_at};
ghost use Rattle.plans.specs.Places.{best};
ghost use Rattle.plans.specs.Plans.{last_limit, planned, list_after, levels_after};
ghost use Rattle.plans.specs.Promises.{PlanOf, NoChoice, number_of};
ghost use Rattle.fronts.specs.Views.{listed_rows};
ghost use Rattle.fronts.specs.Steps.{price_of, LastFront, MadeFronts};

use crate::back::tell_levels;
use crate::by_level::ByLevel;
use crate::limits::{bounds, passed_limit};
use crate::merge::{Front, Full, PricedOffer, advance};
use crate::rows::Rows;
use board::faults::Fault;
use board::offers::Offer;
use cost::kinds::Kind;
use plans::figures::Figures;
use plans::states::State;

// The last front, and how many states all fronts have.
#[derive(Clone, Copy)]
pub(crate) struct Made {
    pub(crate) last: Front,
    pub(crate) states: usize,
}

// What a level offers, at the price of the kind.
fn price<K: Kind>(offer: Option<Offer>) -> Option<PricedOffer<K>>
    ensures { result ≡ price_of K.Kind.meaning offer }
{
    let measure = offer?.measure;
    let entry = K::price(&measure)?;
    Some(PricedOffer {
        load: measure.load,
        entry,
    })
}

// What all levels offer, at the prices of the kind.
fn price_all<K: Kind>(offers: &[Option<Offer>; 8]) -> ByLevel<Option<PricedOffer<K>>>
    ensures { (level : ℕ) → level < 8 → slice_index_or (by_level result) level None ≡ price_of K.Kind.meaning (slice_index_or offers.now level None) }
{
    let mut priced = ByLevel::all(None);
    for (level, offer) in offers.iter().enumerate() {
        priced.put(level, price(*offer));
    }
    priced
}

// The front of so many states that is laid right behind another.
fn behind(front: Front, count: usize) -> Front
    requires { front.start + front.count + 1 < 2 ^ 64 }
    ensures { result ≡ record { start = front.start + front.count; count = count; base = front.start + front.count + 1 } }
{
    let start = front.start + front.count;
    Front {
        start,
        count,
        base: start + 1,
    }
}

// How many states the fronts have, up to this one.
fn states_with(last: Front) -> usize
    requires { last.start + last.count < 2 ^ 64 }
    ensures { result ≡ last.start + last.count }
{
    last.start + last.count
}

// All fronts, laid into the list one behind the other.
fn make_fronts<K: Kind>(
    rows: &Rows,
    bounds: &[u64; 48],
    list: &mut [State<K>],
) -> Result<Made, Fault>
    requires loads { T (loads_fit 0 (rows_of K.Kind.meaning (listed_rows rows.now))) }
    requires bounds { (i : ℕ) (row : Row) → i < length (listed_rows rows.now) → row ≡ slice_index_or (listed_rows rows.now) i row → slice_index bounds.now i ≡ bound_at K.Kind.meaning (listed_rows rows.now) i row }
    ensures { MadeFronts K.Kind.meaning (rows_of K.Kind.meaning (listed_rows rows.now)) list.old list.new result }
{
    let mut last = Front {
        start: 0,
        count: 0,
        base: 0,
    };
    for (row, bound) in rows.rows().iter().zip(bounds) {
        let offers = price_all::<K>(&row.offers);
        match advance(list, last, &offers, *bound) {
            Err(Full) => return Err(Fault::ListFull(row.port)),
            Ok(count) => last = behind(last, count),
        }
    }
    Ok(Made {
        last,
        states: states_with(last),
    })
}

// Load in µs and cost of the cheapest pair of the last front.
fn best_pair<K: Kind>(rows: &Rows, list: &[State<K>], made: Made) -> (u64, K)
    requires loads { T (loads_fit 0 (rows_of K.Kind.meaning (listed_rows rows.now))) }
    requires last { LastFront K.Kind.meaning (rows_of K.Kind.meaning (listed_rows rows.now)) list.now made }
    ensures { result ≡ ((best K.Kind.meaning (rows_of K.Kind.meaning (listed_rows rows.now))).load, (best K.Kind.meaning (rows_of K.Kind.meaning (listed_rows rows.now))).cost) }
{
    if made.last.base == 0 {
        return (0, K::zero());
    }
    let state = list[made.last.start];
    (state.load, state.cost)
}

// The limit of the last row in µs, 0 with no rows.
fn limit_of_last<K: Kind>(rows: &Rows) -> u64
    ensures { result ≡ last_limit (rows_of K.Kind.meaning (listed_rows rows.now)) }
{
    match rows.rows().last() {
        Some(row) => row.limit,
        None => 0,
    }
}

// Plans the rows, in the list and the levels buffer that are lent. Refused with 31 if the buffer has
// fewer than 48 bytes, with 32 if no choice keeps every limit, and with 33 if the states pass the list.
// A refusal leaves both as found, but for the list after 33.
pub fn plan<K: Kind>(
    rows: &Rows,
    list: &mut [State<K>],
    levels: &mut [u8],
) -> Result<Figures<K>, Fault>
    ensures answer { result ≡ planned K.Kind.meaning (length list.old) (length levels.old) (rows_of K.Kind.meaning (listed_rows rows.now)) }
    ensures list { list.new ≡ list_after K.Kind.meaning (rows_of K.Kind.meaning (listed_rows rows.now)) result list.old list.new }
    ensures levels { levels.new ≡ levels_after K.Kind.meaning (rows_of K.Kind.meaning (listed_rows rows.now)) result levels.old }
    ensures best { (f : Figures K) → result ≡ Ok f → PlanOf K.Kind.meaning (rows_of K.Kind.meaning (listed_rows rows.now)) f }
    ensures none_fits { 48 ≤ length levels.old → (number_of result ≡ 32 → NoChoice (rows_of K.Kind.meaning (listed_rows rows.now))) × (NoChoice (rows_of K.Kind.meaning (listed_rows rows.now)) → number_of result ≡ 32) }
{
    if levels.len() < 48 {
        return Err(Fault::ShortBuffer);
    }
    if let Some(fault) = passed_limit::<K>(rows) {
        return Err(fault);
    }
    let bounds = bounds::<K>(rows);
    let made = make_fronts(rows, &bounds, list)?;
    let best = best_pair(rows, list, made);
    tell_levels(rows, list, made.last.base, levels);
    Ok(Figures {
        cost: best.1,
        load: best.0,
        limit: limit_of_last::<K>(rows),
        states: made.states,
    })
}
