// The calls of a job text.
use shortlist::lists::ShortList;

mod reads;

// The first word of a call. It says which lines follow, and which books take the call.
#[derive(Clone, Copy)]
pub enum Word {
    Admit,
    Retire,
    Capacity,
    Trial,
    Serve,
    Clock,
    Plan,
}

// What a call asks for, in figures as the text has them.
#[derive(Clone, Copy)]
pub enum JobCall {
    Plan,
    Admit {
        port: u64,
        cycles: u64,
        // in nJ
        access: u64,
        // the period or the deadline, in µs
        time: u64,
        // a share for each device, in thousandths
        shares: ShortList<u64, 8>,
    },
    Retire {
        port: u64,
    },
    // capacities in thousandths
    Capacity {
        thousandths: u64,
    },
    Trial {
        thousandths: u64,
    },
    Serve {
        port: u64,
        cycles: u64,
    },
    // in µs
    Clock {
        time: u64,
    },
}
