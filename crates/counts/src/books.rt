// The library's books, behind one set of calls.
use crate::figures::{Board, Step};
use board::faults::Fault;
use book::periodic::PeriodicBook;
use book::sporadic::SporadicBook;
use cost::kinds::Kind;
use plans::figures::Figures;
use plans::states::State;

// A book of either rule.
pub trait Book: Copy {
    // A new book of the board's processor.
    fn open(board: &Board) -> Result<Self, Fault>;

    // Makes a call that changes what stands.
    fn change(&mut self, step: &Step) -> Result<(), Fault>;

    // The plan of what stands.
    fn planned<K: Kind>(
        &self,
        list: &mut [State<K>],
        levels: &mut [u8],
    ) -> Result<Figures<K>, Fault>;

    // The plan at a capacity of its own, in thousandths; none of a sporadic book.
    fn tried<K: Kind>(
        &mut self,
        thousandths: u64,
        list: &mut [State<K>],
        levels: &mut [u8],
    ) -> Option<Result<Figures<K>, Fault>>;
}

impl Book for PeriodicBook {
    fn open(board: &Board) -> Result<PeriodicBook, Fault> {
        PeriodicBook::new(&board.levels, &board.standby)
    }

    fn change(&mut self, step: &Step) -> Result<(), Fault> {
        match step {
            Step::Admit(ask) => {
                let shares = ask.shares.listed();
                self.admit(ask.port, ask.cycles, ask.access, shares, ask.due)
            }
            Step::Set(thousandths) => self.capacity(*thousandths),
        }
    }

    fn planned<K: Kind>(
        &self,
        list: &mut [State<K>],
        levels: &mut [u8],
    ) -> Result<Figures<K>, Fault> {
        self.plan(list, levels)
    }

    fn tried<K: Kind>(
        &mut self,
        thousandths: u64,
        list: &mut [State<K>],
        levels: &mut [u8],
    ) -> Option<Result<Figures<K>, Fault>> {
        Some(self.trial(thousandths, list, levels))
    }
}

impl Book for SporadicBook {
    fn open(board: &Board) -> Result<SporadicBook, Fault> {
        SporadicBook::new(&board.levels, &board.standby)
    }

    fn change(&mut self, step: &Step) -> Result<(), Fault> {
        match step {
            Step::Admit(ask) => {
                let shares = ask.shares.listed();
                self.admit(ask.port, ask.cycles, ask.access, shares, ask.due)
            }
            Step::Set(time) => self.clock(*time),
        }
    }

    fn planned<K: Kind>(
        &self,
        list: &mut [State<K>],
        levels: &mut [u8],
    ) -> Result<Figures<K>, Fault> {
        self.plan(list, levels)
    }

    fn tried<K: Kind>(
        &mut self,
        _thousandths: u64,
        _list: &mut [State<K>],
        _levels: &mut [u8],
    ) -> Option<Result<Figures<K>, Fault>> {
        None
    }
}
