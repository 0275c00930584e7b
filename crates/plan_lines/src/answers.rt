// The line of an answer to a plan.
use crate::costs::CostText;
use board::faults::Fault;
use cost::kinds::Kind;
use plans::figures::Figures;
use std::fmt;

// what a levels buffer has for a port without a task
const NO_TASK: u8 = 255;

// The levels of the ports that have a task, joined by commas, or the word none.
#[derive(Clone, Copy)]
struct LevelsText<'a> {
    levels: &'a [u8],
}

impl fmt::Display for LevelsText<'_> {
    fn fmt<W: fmt::Write>(&self, f: &mut fmt::Formatter<W>) -> fmt::Result {
        let mut planned = self.levels.iter().filter(|level| **level != NO_TASK);
        let Some(first) = planned.next() else {
            return write!(f, "none");
        };
        write!(f, "{first}")?;
        for level in planned {
            write!(f, ",{level}")?;
        }
        Ok(())
    }
}

// Cost, load, states and levels of a plan, or the number of the refusal and its port: of what was answered, and
// of the buffer that the levels of the ports were written to.
#[derive(Clone, Copy)]
pub struct PlanLine<'a, K>(pub &'a Result<Figures<K>, Fault>, pub &'a [u8]);

impl<K: Kind> fmt::Display for PlanLine<'_, K> {
    fn fmt<W: fmt::Write>(&self, f: &mut fmt::Formatter<W>) -> fmt::Result {
        match self.0 {
            Ok(figures) => {
                let cost = CostText {
                    cost: &figures.cost,
                };
                let levels = LevelsText { levels: self.1 };
                write!(f, "{cost}; {}; {}; {levels}", figures.load, figures.states)
            }
            Err(fault) => write!(f, "{}, port {}", fault.number(), fault.place()),
        }
    }
}
