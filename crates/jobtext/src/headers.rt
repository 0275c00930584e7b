// The header of a job text.
use board::levels::Level;
use shortlist::lists::ShortList;

mod reads;

// The kinds of cost that a job text can name.
#[derive(Clone, Copy)]
pub enum KindName {
    Energy,
    Peak,
    Both,
}

// Which book a job is of: one of periodic tasks, or one of sporadic tasks.
#[derive(Clone, Copy)]
pub enum Rule {
    Periodic,
    Sporadic,
}

// What a header names.
#[derive(Clone, Copy)]
pub struct Header {
    pub kind: KindName,
    pub rule: Rule,
    pub levels: ShortList<Level, 8>,
    // of each device, in mW
    pub standby: ShortList<u64, 8>,
}
