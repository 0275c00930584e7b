// Why a run ends early: the library and the count differ, or the count could not be made.
use crate::answers::Refusal;
use crate::tolls::Toll;
use std::alloc::{AllocError, AllocFailed};
use std::error::Error;
use std::fmt;

// A number of a plan, or of what it wrote.
#[derive(Clone, Copy, Debug)]
pub enum Figure {
    // µs
    Load,
    // µs
    Limit,
    States,
    // a byte of the levels buffer that belongs to no row
    Byte,
    // the load, the level or the position of a place of the list
    ListLoad,
    ListLevel,
    ListPosition,
}

impl fmt::Display for Figure {
    fn fmt<W: fmt::Write>(&self, f: &mut fmt::Formatter<W>) -> fmt::Result {
        f.write_str(match self {
            Figure::Load => "load",
            Figure::Limit => "limit",
            Figure::States => "states",
            Figure::Byte => "byte without a row",
            Figure::ListLoad => "load in the list",
            Figure::ListLevel => "level in the list",
            Figure::ListPosition => "position in the list",
        })
    }
}

// A plan that is to answer and write the same as another.
#[derive(Clone, Copy, Debug)]
pub enum Repeat {
    // in a list that is just long enough
    ExactList,
    // in an empty list, where none fits
    NoList,
    // a trial, and the plan at its capacity
    Trial,
    // the plan after a trial
    AfterTrial,
}

impl fmt::Display for Repeat {
    fn fmt<W: fmt::Write>(&self, f: &mut fmt::Formatter<W>) -> fmt::Result {
        f.write_str(match self {
            Repeat::ExactList => "plan in a list just long enough",
            Repeat::NoList => "plan in an empty list",
            Repeat::Trial => "trial",
            Repeat::AfterTrial => "plan after a trial",
        })
    }
}

// What the library told, and what was counted.
#[derive(Clone, Copy, Debug)]
pub enum Difference {
    // whether a call was refused, and with what
    Answer {
        told: Result<(), Refusal>,
        counted: Result<(), Refusal>,
    },
    Number {
        figure: Figure,
        told: u64,
        counted: u64,
    },
    // the cost of a plan or of a place of the list; none if the library's has not one or two numbers
    Cost {
        told: Option<Toll>,
        counted: Toll,
    },
    // two plans that are to be the same
    Plans(Repeat),
    // the level that is written for a port is not offered to it
    Level {
        level: u8,
        port: u64,
    },
    // the levels that are written pass the limit of a row: both in µs
    Limit {
        load: u64,
        limit: u64,
    },
    // a pair of a front that no level completes, with its load in µs
    Uncompleted {
        load: u64,
    },
    // no memory
    Memory,
    // a number of the count does not fit
    Range,
}

// An error unless the library told the number that was counted.
pub fn agree(figure: Figure, told: u64, counted: u64) -> Result<(), Difference> {
    if told == counted {
        return Ok(());
    }
    Err(Difference::Number {
        figure,
        told,
        counted,
    })
}

// An error unless the library's cost is the one that was counted.
pub fn agree_on_cost(told: Option<Toll>, counted: Toll) -> Result<(), Difference> {
    if told == Some(counted) {
        return Ok(());
    }
    Err(Difference::Cost { told, counted })
}

// An error unless the library refused a call with what was counted, or neither refused it.
pub fn agree_on_answer(
    told: Result<(), Refusal>,
    counted: Result<(), Refusal>,
) -> Result<(), Difference> {
    if told == counted {
        return Ok(());
    }
    Err(Difference::Answer { told, counted })
}

impl From<AllocError> for Difference {
    fn from(_e: AllocError) -> Difference {
        Difference::Memory
    }
}

impl<T: Drop> From<AllocFailed<T>> for Difference {
    fn from(_e: AllocFailed<T>) -> Difference {
        Difference::Memory
    }
}

impl fmt::Display for Difference {
    fn fmt<W: fmt::Write>(&self, f: &mut fmt::Formatter<W>) -> fmt::Result {
        match self {
            Difference::Answer { told, counted } => {
                write!(f, "the library answered {told:?}, counted {counted:?}")
            }
            Difference::Number {
                figure,
                told,
                counted,
            } => write!(f, "{figure}: the library told {told}, counted {counted}"),
            Difference::Cost { told, counted } => {
                write!(f, "cost: the library told {told:?}, counted {counted:?}")
            }
            Difference::Plans(repeat) => write!(f, "another answer: {repeat}"),
            Difference::Level { level, port } => {
                write!(f, "level {level} is not offered to port {port}")
            }
            Difference::Limit { load, limit } => {
                write!(f, "the levels have a load of {load}, the limit is {limit}")
            }
            Difference::Uncompleted { load } => {
                write!(f, "no level completes a pair with a load of {load}")
            }
            // these have no numbers, and tell 0
            Difference::Memory => write!(f, "memory: the library told 0, counted 0"),
            Difference::Range => write!(f, "range of the count: the library told 0, counted 0"),
        }
    }
}

impl Error for Difference {}
