// The plain figures of a board, as they are handed to a book and counted with.
use board::levels::Level;

// Which book plans the board.
#[derive(Clone, Copy)]
pub enum Rule {
    Periodic,
    Sporadic,
}

// What is made least.
#[derive(Clone, Copy)]
pub enum Aim {
    // the energies, summed
    Energy,
    // the largest draw
    Peak,
    // the energies, summed, and at one sum the largest draw
    Both,
    // how many tasks draw more than 10 W
    Hot,
}

// the most shares that a call hands in: one more than a board has devices
pub const MOST_SHARES: usize = 4;

// Shares of devices in thousandths: the first `count` are handed in.
#[derive(Clone, Copy)]
pub struct Shares {
    pub thousandths: [u64; MOST_SHARES],
    pub count: usize,
}

impl Shares {
    // The shares that are handed in.
    pub fn listed(&self) -> &[u64] {
        let all = &self.thousandths[..];
        &all[0..self.count.min(MOST_SHARES)]
    }
}

// What a port asks for.
#[derive(Clone, Copy)]
pub struct Ask {
    pub port: u64,
    pub cycles: u64,
    // energy of one job's accesses, in nJ
    pub access: u64,
    pub shares: Shares,
    // period, or deadline on the book's clock, in µs
    pub due: u64,
}

// A call that changes what stands in a book.
#[derive(Clone, Copy)]
pub enum Step {
    Admit(Ask),
    // the capacity of a periodic book in thousandths, or the clock of a sporadic one in µs
    Set(u64),
}

// A processor, the calls that fill its book, and how the book is planned.
#[derive(Drop)]
pub struct Board {
    pub rule: Rule,
    pub aim: Aim,
    pub levels: Vec<Level>,
    // standby power of each device, in mW
    pub standby: Vec<u64>,
    pub steps: Vec<Step>,
}

// The speed of the top level in MHz; 0 without a level.
pub fn top_mhz(levels: &[Level]) -> u64 {
    levels.last().map_or(0, |level| level.mhz)
}
