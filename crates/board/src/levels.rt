// A clock level.

// Speed in MHz and power in mW, of any size: a processor judges them.
#[derive(Clone, Copy)]
pub struct Level {
    pub mhz: u64,
    pub mw: u64,
}
