// Calls of the two books, as values: arguments of any size. A plan or a trial is made in the first `places`
// places of the list of states and the first `bytes` bytes of the levels buffer, or in all of them where
// fewer are lent.

// A call of the periodic book: capacities in thousandths, the task's figures as `admit` takes them.
#[derive(Clone, Copy)]
pub enum PeriodicCall<'a> {
    Plan {
        places: usize,
        bytes: usize,
    },
    Admit {
        port: u64,
        cycles: u64,
        access: u64,
        shares: &'a [u64],
        period: u64,
    },
    Retire {
        port: u64,
    },
    Capacity {
        thousandths: u64,
    },
    Trial {
        thousandths: u64,
        places: usize,
        bytes: usize,
    },
}

// A call of the sporadic book: times in µs, the task's figures as `admit` takes them.
#[derive(Clone, Copy)]
pub enum SporadicCall<'a> {
    Plan {
        places: usize,
        bytes: usize,
    },
    Admit {
        port: u64,
        cycles: u64,
        access: u64,
        shares: &'a [u64],
        deadline: u64,
    },
    Retire {
        port: u64,
    },
    Serve {
        port: u64,
        cycles: u64,
    },
    Clock {
        time: u64,
    },
}

// What a periodic book is asked for at the end: a plan, or a trial at this capacity in thousandths. In an
// `Option` of a capacity `None` would not say that a plan is asked for.
#[derive(Clone, Copy)]
pub enum Question {
    Plan,
    Trial { thousandths: u64 },
}
