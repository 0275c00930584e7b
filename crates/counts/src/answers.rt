// What the library answers, in plain numbers.
use crate::tolls::Toll;
use board::faults::Fault;
use cost::kinds::Kind;
use plans::figures::Figures;

// the bytes of the levels buffer: two more than are written
pub const BUFFER_BYTES: usize = 50;

// what stands in the levels buffer before a plan
pub const MARK: u8 = 77;

// A plan that was given.
#[derive(Clone, Copy, PartialEq, Eq)]
pub struct Plan {
    // none if the library's cost has not one or two numbers
    pub toll: Option<Toll>,
    // in µs
    pub load: u64,
    // in µs
    pub limit: u64,
    pub states: usize,
}

impl<K: Kind> From<Figures<K>> for Plan {
    fn from(figures: Figures<K>) -> Plan {
        Plan {
            toll: Toll::of(&figures.cost),
            load: figures.load,
            limit: figures.limit,
            states: figures.states,
        }
    }
}

// The number of a refusal, and the port that it names, or 0.
#[derive(Clone, Copy, PartialEq, Eq, Debug)]
pub struct Refusal {
    pub number: u8,
    pub port: u64,
}

impl From<Fault> for Refusal {
    fn from(fault: Fault) -> Refusal {
        Refusal {
            number: fault.number(),
            port: fault.place(),
        }
    }
}

// The answer to a plan in plain numbers.
pub fn plain<K: Kind>(answer: Result<Figures<K>, Fault>) -> Result<Plan, Refusal> {
    answer.map(Plan::from).map_err(Refusal::from)
}
