// A kind of cost from outside the crate of kinds, and the kinds at work.
#![tactic(auto)]

ghost use Rattle.std.specs.Prelude.{[], ◌∷◌};
ghost use Rattle.kindtest.specs.Heat.{hot};
ghost use Rattle.kindtest.specs.HeatLemmas.{hot_laws};

use board::measures::Measure;
use cost::kinds::Kind;

// How many tasks run hot.
#[derive(Clone, Copy)]
pub struct Hot {
    pub tasks: u8,
}

impl Kind for Hot {
    const LETTER: u8 = b'h';

    ghost LETTER = { 104 };

    ghost meaning = { hot };

    ghost numbers = { λ h. h.tasks ∷ [] };

    ghost laws = { hot_laws };

    fn number(&self, i: usize) -> Option<u64> {
        if i == 0 {
            Some(u64::from(self.tasks))
        } else {
            None
        }
    }

    // A task is hot above 10 W; what draws more than 100 W is declined.
    fn price(m: &Measure) -> Option<Hot> {
        if m.draw > 100_000_000 {
            None
        } else if m.draw > 10_000_000 {
            Some(Hot { tasks: 1 })
        } else {
            Some(Hot { tasks: 0 })
        }
    }

    fn zero() -> Hot {
        Hot { tasks: 0 }
    }

    fn add(self, other: Hot) -> Option<Hot> {
        let tasks = self.tasks.checked_add(other.tasks)?;
        Some(Hot { tasks })
    }

    fn no_dearer(&self, other: &Hot) -> bool {
        self.tasks <= other.tasks
    }
}

#[cfg(test)]
mod tests;
