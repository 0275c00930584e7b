// Why a call is refused.
ghost use Rattle.std.specs.Prelude.{◌≡◌};
ghost use Rattle.board.specs.Faults.{numbered};

use std::error::Error;
use std::fmt;

// A refusal, with the port that was named, or that does not fit, where there is one.
#[derive(Clone, Copy, PartialEq, Eq, Debug)]
pub enum Fault {
    // 21: the count or a figure of the levels or devices is out of range, or a figure does not rise
    BadProcessor,
    // 22: no port has this number
    NoSuchPort(u64),
    // 23: the port has a task already
    PortTaken(u64),
    // 24: the port has no task
    PortFree(u64),
    // 25: cycles, access, a share or the count of shares out of range, or more served than remains
    BadFigure(u64),
    // 26: the period is out of range, or the deadline is not in the time after the clock
    BadTime(u64),
    // 27: even the top level takes longer than the period or the time to the deadline
    TooSlow(u64),
    // 28: the hyperperiod would be too long
    LongHyperperiod(u64),
    // 29: the capacity is out of range, or the clock would go back or too far
    BadSetting,
    // 31: the levels buffer is too short
    ShortBuffer,
    // 32: no choice keeps every limit
    NoneFits(u64),
    // 33: the states pass the list
    ListFull(u64),
}

impl Fault {
    // The number of the refusal. The variants carry ports, so they cannot have their numbers themselves.
    pub fn number(&self) -> u8
        ensures { result ≡ (numbered self.now).number }
    {
        match self {
            Fault::BadProcessor => 21,
            Fault::NoSuchPort(_) => 22,
            Fault::PortTaken(_) => 23,
            Fault::PortFree(_) => 24,
            Fault::BadFigure(_) => 25,
            Fault::BadTime(_) => 26,
            Fault::TooSlow(_) => 27,
            Fault::LongHyperperiod(_) => 28,
            Fault::BadSetting => 29,
            Fault::ShortBuffer => 31,
            Fault::NoneFits(_) => 32,
            Fault::ListFull(_) => 33,
        }
    }

    // The port that the refusal is about, or 0, as answers are written.
    pub fn place(&self) -> u64
        ensures { result ≡ (numbered self.now).place }
    {
        match self {
            Fault::BadProcessor | Fault::BadSetting | Fault::ShortBuffer => 0,
            Fault::NoSuchPort(port)
            | Fault::PortTaken(port)
            | Fault::PortFree(port)
            | Fault::BadFigure(port)
            | Fault::BadTime(port)
            | Fault::TooSlow(port)
            | Fault::LongHyperperiod(port)
            | Fault::NoneFits(port)
            | Fault::ListFull(port) => *port,
        }
    }
}

impl fmt::Display for Fault {
    fn fmt<W: fmt::Write>(&self, f: &mut fmt::Formatter<W>) -> fmt::Result {
        let number = self.number();
        let place = self.place();
        write!(f, "refused with {number}, place {place}")
    }
}

impl Error for Fault {}
