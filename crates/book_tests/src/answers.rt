// Answers as a test compares them.
use board::faults::Fault;
use board::levels::Level;
use cost::energies::Energy;
use plans::figures::Figures;

// 100 MHz at 100 mW, and 200 MHz at 300 mW.
pub const TWO_LEVELS: [Level; 2] = [Level { mhz: 100, mw: 100 }, Level { mhz: 200, mw: 300 }];

// The number of a refusal, and the port that it names, or 0.
pub(crate) type Refusal = (u8, u64);

// Cost, load and states of a plan.
pub(crate) type Planned = Result<(u64, u64, usize), Refusal>;

fn refusal(fault: Fault) -> Refusal {
    (fault.number(), fault.place())
}

// What a call answered.
pub(crate) fn told(answer: Result<(), Fault>) -> Result<(), Refusal> {
    answer.map_err(refusal)
}

// What a plan answered.
pub(crate) fn plan_told(answer: Result<Figures<Energy>, Fault>) -> Planned {
    answer
        .map(|figures| (figures.cost.picojoules, figures.load, figures.states))
        .map_err(refusal)
}

// A refusal with this number names the port.
pub(crate) fn at_port(answer: Result<(), u8>, port: u64) -> Result<(), Refusal> {
    answer.map_err(|number| (number, port))
}
