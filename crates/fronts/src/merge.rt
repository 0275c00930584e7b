// The list step: the next front is made from the present one and laid right behind it, inside a part of the lent list.
//
// Each offered level makes a candidate of every pair of the front, from the cheapest pair on. The head of a level is its
// next candidate, and its cursor the index of the pair that the head extends. In each turn the cheapest head is taken,
// and its level goes on to the next pair. So each candidate is made once and taken once, the cheapest first.
ghost use Rattle.std.specs.Prelude.{◌≡◌, ℕ, ◌+◌, ◌^◌, ◌<◌, ◌≤◌, List, reverse, length, take, drop, Some, None, nat_le, nat_lt, slice_index, slice_index_or};
ghost use Rattle.std.specs.List.{slice_get};
ghost use Rattle.cost.specs.Kinds.{unless_declined};
ghost use Rattle.plans.specs.Choices.{Row};
ghost use Rattle.plans.specs.Places.{next_places};
ghost use Rattle.plans.specs.Plans.{laid};
ghost use Rattle.fronts.specs.ByLevel.{by_level};
ghost use Rattle.fronts.specs.Merging.{sum_of, state_of, sum_at, heads_of, cheaper as first_cheaper, cheapest as cheapest_head, keep};
ghost use Rattle.fronts.specs.Merge.{before, size, offer_at, Fitting, comparison, Outcome, Kept, NextRow, SomeNextRow};

use crate::by_level::ByLevel;
use cost::kinds::Kind;
use plans::states::State;

// A level that a row may run at: its load, and its entry in the cost.
#[derive(Clone, Copy)]
pub(crate) struct PricedOffer<K> {
    // in µs
    pub(crate) load: u64,
    pub(crate) entry: K,
}

// A front in the list: where its states start there, how many they are, and `base`, the position of its first pair, counted
// from 1 at the start of the list. The pair of no rows has the position 0 and no place in the list.
#[derive(Clone, Copy)]
pub(crate) struct Front {
    pub(crate) start: usize,
    pub(crate) count: usize,
    pub(crate) base: usize,
}

// The part has no room for the next front.
#[derive(Clone, Copy)]
pub(crate) struct Full;

// A candidate against the last one kept, which is no dearer.
#[derive(Clone, Copy)]
enum Comparison {
    NoLighter,
    // lighter, at equal cost
    Lighter,
    LighterAndDearer,
}

// Whether the front before has a pair at the index. The pair of no rows is a front by itself.
fn has_pair(front: Front, index: usize) -> bool
    ensures { result ≡ nat_lt index (size front.base front.count) }
{
    if front.base == 0 {
        index < 1
    } else {
        index < front.count
    }
}

// Load in µs and cost of the pair at the index of the front before, which is at the start of the part.
fn pair_before<K: Kind>(part: &[State<K>], front: Front, index: usize) -> Option<(u64, K)>
    requires within { front.count ≤ length part.now }
    ensures { result ≡ sum_of (slice_get (before K.Kind.meaning front.base (take front.count part.now)) index) }
{
    if !has_pair(front, index) {
        return None;
    }
    if front.base == 0 {
        return Some((0, K::zero()));
    }
    let state = part[index];
    Some((state.load, state.cost))
}

// Load in µs and cost of a beginning that is extended by the offer of one row more.
fn extend<K: Kind>(sum: (u64, K), offer: &PricedOffer<K>) -> Option<(u64, K)>
    requires fits { sum.0 + offer.now.load < 2 ^ 64 }
    ensures { result ≡ unless_declined (K.Kind.meaning.adds sum.1 offer.now.entry) (sum.0 + offer.now.load, K.Kind.meaning.plus sum.1 offer.now.entry) }
{
    let cost = sum.1.add(offer.entry)?;
    Some((sum.0 + offer.load, cost))
}

// The candidate of a level with this load and cost, which extends the pair at the index of the front before.
fn candidate<K: Kind>(sum: (u64, K), level: usize, base: usize, index: usize) -> State<K>
    requires low { level < 8 }
    requires position { base + index < 2 ^ 64 }
    ensures { Some result ≡ state_of level (base + index) (Some sum) }
{
    State {
        load: sum.0,
        cost: sum.1,
        level: level as u8,
        position: base + index,
    }
}

// Load in µs and cost that a level makes of the pair at the index of the front before, if it is offered and the pair is there.
fn head<K: Kind>(
    part: &[State<K>],
    front: Front,
    offers: &ByLevel<Option<PricedOffer<K>>>,
    level: usize,
    index: usize,
) -> Option<(u64, K)>
    requires within { front.count ≤ length part.now }
    requires fits { Fitting K.Kind.meaning (before K.Kind.meaning front.base (take front.count part.now)) (by_level offers.now) }
    requires low { level < 8 }
    ensures { result ≡ sum_at K.Kind.meaning (before K.Kind.meaning front.base (take front.count part.now)) (offer_at (by_level offers.now)) level index }
{
    let offer = offers.get(level)?;
    let sum = pair_before(part, front, index)?;
    extend(sum, &offer)
}

// What each level makes of the first pair of the front before.
fn first_heads<K: Kind>(
    part: &[State<K>],
    front: Front,
    offers: &ByLevel<Option<PricedOffer<K>>>,
) -> ByLevel<Option<(u64, K)>>
    requires within { front.count ≤ length part.now }
    requires fits { Fitting K.Kind.meaning (before K.Kind.meaning front.base (take front.count part.now)) (by_level offers.now) }
    ensures { (level : ℕ) → level < 8 → slice_index_or (by_level result) level None ≡ sum_at K.Kind.meaning (before K.Kind.meaning front.base (take front.count part.now)) (offer_at (by_level offers.now)) level 0 }
{
    let mut heads = ByLevel::all(None);
    for level in 0..8 {
        heads.put(level, head(part, front, offers, level, 0));
    }
    heads
}

// The cheaper of the two, the one found first at equal cost.
fn cheaper<K: Kind>(found: Option<State<K>>, offered: State<K>) -> Option<State<K>>
    ensures { result ≡ first_cheaper K.Kind.meaning found (Some offered) }
{
    match found {
        Some(state) if state.cost.no_dearer(&offered.cost) => Some(state),
        _ => Some(offered),
    }
}

// The cheapest head, as a candidate with its level and position; at equal cost that of the lowest level.
fn cheapest<K: Kind>(
    heads: &ByLevel<Option<(u64, K)>>,
    cursors: &[usize; 8],
    base: usize,
) -> Option<State<K>>
    requires positions { (level : ℕ) (sum : ℕ × K) → slice_index_or (by_level heads.now) level None ≡ Some sum → base + slice_index cursors.now level < 2 ^ 64 }
    ensures { result ≡ cheapest_head K.Kind.meaning (heads_of base (by_level heads.now) cursors.now) 8 }
{
    let mut found: Option<State<K>> = None;
    for (level, cursor) in cursors.iter().enumerate() {
        if let Some(sum) = heads.get(level) {
            let offered = candidate(sum, level, base, *cursor);
            found = cheaper(found, offered);
        }
    }
    found
}

// Whether a sum of loads, in µs, leaves this row and the later ones open.
fn is_open(load: u64, bound: u64) -> bool
    ensures { result ≡ nat_le load bound }
{
    load <= bound
}

// How a candidate compares with the last one kept, which is no dearer.
fn compare<K: Kind>(next: &State<K>, last: &State<K>) -> Comparison
    ensures { result ≡ comparison K.Kind.meaning next.now last.now }
{
    if last.load <= next.load {
        Comparison::NoLighter
    } else if next.cost.no_dearer(&last.cost) {
        Comparison::Lighter
    } else {
        Comparison::LighterAndDearer
    }
}

// Takes one candidate more to what was kept so far, part[count..end]; the answer is where it ends now. One that is too
// heavy to be open is passed over; one no lighter than the last kept is dropped; one that is lighter at equal cost takes
// the place of the last kept; any other is kept behind it.
fn keep_candidate<K: Kind>(
    part: &mut [State<K>],
    count: usize,
    end: usize,
    next: State<K>,
    bound: u64,
) -> Result<usize, Full>
    requires begins { count ≤ end }
    requires ends { end ≤ length part.old }
    ensures { (kept old : List (State K)) → part.old ≡ laid count (reverse kept) old → end ≡ count + length kept → end ≤ length old → Kept count (keep K.Kind.meaning bound kept next) old part.new result }
{
    if !is_open(next.load, bound) {
        return Ok(end);
    }
    if end > count {
        let last = part[end - 1];
        match compare(&next, &last) {
            Comparison::NoLighter => {
                return Ok(end);
            }
            Comparison::Lighter => {
                part[end - 1] = next;
                return Ok(end);
            }
            Comparison::LighterAndDearer => {}
        }
    }
    if end >= part.len() {
        return Err(Full);
    }
    part[end] = next;
    Ok(end + 1)
}

// Lays the next front right behind the front before; the answer is its size.
fn merge<K: Kind>(
    part: &mut [State<K>],
    front: Front,
    offers: &ByLevel<Option<PricedOffer<K>>>,
    bound: u64,
) -> Result<usize, Full>
    requires within { front.count ≤ length part.old }
    requires positions { front.base + front.count ≤ 2 ^ 64 }
    requires fits { Fitting K.Kind.meaning (before K.Kind.meaning front.base (take front.count part.old)) (by_level offers.now) }
    ensures { (row : Row K) (done later : List (Row K)) → NextRow K.Kind.meaning (before K.Kind.meaning front.base (take front.count part.old)) (by_level offers.now) bound row done later → Outcome front.count (next_places K.Kind.meaning front.base row done later) part.old part.new result }
{
    let mut heads = first_heads(part, front, offers);
    let mut cursors = [0usize; 8];
    let mut end = front.count;
    while let Some(next) = cheapest(&heads, &cursors, front.base) {
        let level = next.level as usize;
        let index = cursors[level] + 1;
        cursors[level] = index;
        heads.put(level, head(part, front, offers, level, index));
        end = keep_candidate(part, front.count, end, next, bound)?;
    }
    Ok(end - front.count)
}

// The step on the whole list. The front before and the room behind it are passed on as one part.
pub(crate) fn advance<K: Kind>(
    list: &mut [State<K>],
    front: Front,
    offers: &ByLevel<Option<PricedOffer<K>>>,
    bound: u64,
) -> Result<usize, Full>
    requires within { front.start + front.count ≤ length list.old }
    requires positions { front.base ≤ front.start + 1 }
    requires row { SomeNextRow K.Kind.meaning (before K.Kind.meaning front.base (take front.count (drop front.start list.old))) (by_level offers.now) bound }
    ensures { (row : Row K) (done later : List (Row K)) → NextRow K.Kind.meaning (before K.Kind.meaning front.base (take front.count (drop front.start list.old))) (by_level offers.now) bound row done later → Outcome (front.start + front.count) (next_places K.Kind.meaning front.base row done later) list.old list.new result }
{
    merge(&mut list[front.start..], front, offers, bound)
}
