// The beginnings of a board's choices, and the pairs among them that no other beats.
use crate::choices::{Sum, way_at, ways_of};
use crate::differences::Difference;
use crate::figures::Aim;
use crate::rows::CountedRow;
use std::alloc::Global;

// The port of the first row whose limit is passed by this load in µs and the smallest loads of the rows up to it.
pub fn first_passed(load: u64, rows: &[CountedRow]) -> Result<Option<u64>, Difference> {
    let mut sum = load;
    for row in rows {
        sum = sum
            .checked_add(row.smallest_load())
            .ok_or(Difference::Range)?;
        if sum > row.limit {
            return Ok(Some(row.port));
        }
    }
    Ok(None)
}

// The pairs of the beginnings that give the first rows an offer each and leave the later rows open.
fn open_pairs(
    heap: Global,
    aim: Aim,
    first: &[CountedRow],
    later: &[CountedRow],
) -> Result<Vec<Sum>, Difference> {
    let mut pairs = Vec::new(heap);
    for number in 0..ways_of(first)? {
        if let Some(sum) = way_at(aim, first, number)? {
            if first_passed(sum.load, later)?.is_none() {
                pairs.push(sum)?;
            }
        }
    }
    Ok(pairs)
}

// The front of the first rows, each pair once and from the cheapest on.
pub fn front_of(
    heap: Global,
    aim: Aim,
    first: &[CountedRow],
    later: &[CountedRow],
) -> Result<Vec<Sum>, Difference> {
    let mut pairs = open_pairs(heap, aim, first, later)?;
    pairs.sort()?;
    pairs.dedup();
    let front = pairs
        .iter()
        .copied()
        .filter(|pair| !pairs.iter().any(|other| other.beats(pair)))
        .collect(heap)?;
    Ok(front)
}

// The number of all beginnings of at least one row: no list of states needs more places.
pub fn all_beginnings(rows: &[CountedRow]) -> Result<usize, Difference> {
    let mut ways = 1usize;
    let mut all = 0usize;
    for row in rows {
        ways = ways.checked_mul(row.offers.len()).ok_or(Difference::Range)?;
        all = all.checked_add(ways).ok_or(Difference::Range)?;
    }
    Ok(all)
}
