// The kind e: the energy, summed.
ghost use Rattle.std.specs.Prelude.{[], ◌∷◌};
ghost use Rattle.cost.specs.Models.{energy};
ghost use Rattle.cost.specs.Singles.{energy_laws, energy_strict};

use crate::kinds::{Kind, StrictKind};
use board::measures::Measure;

// Energy in pJ.
#[derive(Clone, Copy)]
pub struct Energy {
    pub picojoules: u64,
}

impl Kind for Energy {
    const LETTER: u8 = b'e';

    ghost LETTER = { 101 };

    ghost meaning = { energy };

    ghost numbers = { λ e. e.picojoules ∷ [] };

    ghost laws = { energy_laws };

    fn number(&self, i: usize) -> Option<u64> {
        if i == 0 { Some(self.picojoules) } else { None }
    }

    fn price(m: &Measure) -> Option<Energy> {
        Some(Energy {
            picojoules: m.energy,
        })
    }

    fn zero() -> Energy {
        Energy { picojoules: 0 }
    }

    fn add(self, other: Energy) -> Option<Energy> {
        let picojoules = self.picojoules.checked_add(other.picojoules)?;
        Some(Energy { picojoules })
    }

    fn no_dearer(&self, other: &Energy) -> bool {
        self.picojoules <= other.picojoules
    }
}

impl StrictKind for Energy {
    ghost strict = { energy_strict };
}
