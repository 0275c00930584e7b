// What planning answers.

// The figures of a plan.
#[derive(Clone, Copy)]
pub struct Figures<K> {
    pub cost: K,
    // sum of the loads, in µs
    pub load: u64,
    // limit of the last row, in µs; 0 with no rows
    pub limit: u64,
    // pairs of all fronts
    pub states: usize,
}
