// The kind p: the largest draw.
ghost use Rattle.std.specs.Prelude.{[], ◌∷◌};
ghost use Rattle.cost.specs.Models.{peak};
ghost use Rattle.cost.specs.Singles.{peak_laws};

use crate::kinds::Kind;
use board::measures::Measure;

// Draw in µW.
#[derive(Clone, Copy)]
pub struct Peak {
    pub microwatts: u64,
}

impl Kind for Peak {
    const LETTER: u8 = b'p';

    ghost LETTER = { 112 };

    ghost meaning = { peak };

    ghost numbers = { λ p. p.microwatts ∷ [] };

    ghost laws = { peak_laws };

    fn number(&self, i: usize) -> Option<u64> {
        if i == 0 { Some(self.microwatts) } else { None }
    }

    fn price(m: &Measure) -> Option<Peak> {
        Some(Peak { microwatts: m.draw })
    }

    fn zero() -> Peak {
        Peak { microwatts: 0 }
    }

    fn add(self, other: Peak) -> Option<Peak> {
        Some(Peak {
            microwatts: self.microwatts.max(other.microwatts),
        })
    }

    fn no_dearer(&self, other: &Peak) -> bool {
        self.microwatts <= other.microwatts
    }
}
