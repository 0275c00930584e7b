// The list of states that a plan leaves, counted from what the fronts are.
use crate::beginnings::front_of;
use crate::choices::Sum;
use crate::differences::Difference;
use crate::figures::Aim;
use crate::rows::{CountedRow, Offered};
use std::alloc::Global;

// A place of the list.
#[derive(Clone, Copy)]
pub struct Place {
    // the port of the front's row
    pub port: u64,
    pub sum: Sum,
    // the lowest level of the front's row that completes a pair of the front before to this one
    pub level: usize,
    // where that pair stands in the list, counted from 1; 0 in front 1
    pub position: usize,
}

// A front that another comes after.
#[derive(Drop)]
struct Before {
    pairs: Vec<Sum>,
    // the position of its first pair, 0 of front 0
    base: usize,
}

impl Before {
    // Front 0, which has the pair of nothing.
    fn first(heap: Global, aim: Aim) -> Result<Before, Difference> {
        Ok(Before {
            pairs: vec![in heap; Sum::nothing(aim)]?,
            base: 0,
        })
    }

    // The index of the pair that the offer completes to this one.
    fn completed_by(&self, aim: Aim, offer: &Offered, pair: &Sum) -> Option<usize> {
        self.pairs
            .iter()
            .position(|before| before.with_offer(aim, offer) == Some(*pair))
    }

    // The place of a pair in the front of the row.
    fn place_of(&self, aim: Aim, row: &CountedRow, pair: &Sum) -> Result<Place, Difference> {
        row.offers
            .iter()
            .find_map(|offer| {
                let index = self.completed_by(aim, offer, pair)?;
                Some(Place {
                    port: row.port,
                    sum: *pair,
                    level: offer.level,
                    position: self.base.saturating_add(index),
                })
            })
            .ok_or(Difference::Uncompleted { load: pair.load })
    }
}

// The places of the fronts of the rows, one front behind the other.
pub fn count_fronts(heap: Global, aim: Aim, rows: &[CountedRow]) -> Result<Vec<Place>, Difference> {
    let mut places = Vec::new(heap);
    let mut before = Before::first(heap, aim)?;
    for (i, row) in rows.iter().enumerate() {
        let (first, later) = rows.split_at(i + 1);
        let pairs = front_of(heap, aim, first, later)?;
        let base = places.len().saturating_add(1);
        for pair in pairs.iter() {
            places.push(before.place_of(aim, row, pair)?)?;
        }
        before = Before { pairs, base };
    }
    Ok(places)
}

// The port of the first row whose front has no room in a list of so many places; 0 if all have.
pub fn first_without_room(places: &[Place], room: usize) -> u64 {
    places.get(room).map_or(0, |place| place.port)
}
