// What is planned of one task.
use board::offers::Offer;

// A task's port, its limit in µs, and what each level offers it.
#[derive(Clone, Copy)]
pub struct Row {
    pub port: u64,
    pub limit: u64,
    pub offers: [Option<Offer>; 8],
}
