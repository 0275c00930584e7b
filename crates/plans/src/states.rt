// A place of the list that the fronts are laid into.

pub mod makes;

// A pair of a front, and how it came about.
#[derive(Clone, Copy)]
pub struct State<K> {
    // sum of the loads, in µs
    pub load: u64,
    pub cost: K,
    // the lowest level of the front's row that completes a pair of the front before to this one
    pub level: u8,
    // where that pair stands in the list, counted from 1; 0 in the first front. The list is defined with
    // these numbers, and an `Option` would hold the same in more memory.
    pub position: usize,
}
