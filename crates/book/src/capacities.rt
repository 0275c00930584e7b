// The capacity of a periodic book.
ghost use Rattle.std.specs.Prelude.{◌≡◌};

// The part of the hyperperiod that may be busy, in thousandths.
#[derive(Clone, Copy)]
pub struct Capacity {
    pub thousandths: u64,
}

// A capacity that is set for a trial: the record has the figure from before again when this is dropped.
pub struct TrialCapacity<'a> {
    pub record: &'a mut Capacity,
    pub before: u64,
}

impl Drop for TrialCapacity<'_> {
    fn drop(self)
        ensures { self.exit.0.now.thousandths ≡ self.entry.before }
    {
        self.record.thousandths = self.before;
        let TrialCapacity {
            record: _,
            before: _,
        } = self;
    }
}
