// What a choice costs, counted in plain numbers.
use crate::figures::Aim;
use cost::kinds::Kind;

// a task is hot above this draw, in µW
const HOT_ABOVE: u64 = 10_000_000;

// A cost: its first number, and the second one if the aim has two. The first is compared before the second.
#[derive(Clone, Copy, PartialEq, Eq, PartialOrd, Ord, Debug)]
pub struct Toll {
    pub first: u64,
    pub second: Option<u64>,
}

impl Toll {
    // The numbers of a cost of the library; none if it has not one or two.
    pub fn of<K: Kind>(cost: &K) -> Option<Toll> {
        if cost.number(2).is_some() {
            return None;
        }
        Some(Toll {
            first: cost.number(0)?,
            second: cost.number(1),
        })
    }
}

impl Aim {
    // The cost of nothing.
    pub fn nothing(self) -> Toll {
        Toll {
            first: 0,
            second: match self {
                Aim::Energy | Aim::Peak | Aim::Hot => None,
                Aim::Both => Some(0),
            },
        }
    }

    // What a task adds that takes this energy, in pJ, at this draw, in µW.
    pub fn entry(self, energy: u64, draw: u64) -> Toll {
        let first = match self {
            Aim::Energy | Aim::Both => energy,
            Aim::Peak => draw,
            Aim::Hot => u64::from(draw > HOT_ABOVE),
        };
        let second = match self {
            Aim::Energy | Aim::Peak | Aim::Hot => None,
            Aim::Both => Some(draw),
        };
        Toll { first, second }
    }

    // The cost with one entry more: energies and hot tasks are summed, of draws the largest counts.
    pub fn with_entry(self, toll: Toll, entry: Toll) -> Option<Toll> {
        let first = match self {
            Aim::Energy | Aim::Both | Aim::Hot => toll.first.checked_add(entry.first)?,
            Aim::Peak => toll.first.max(entry.first),
        };
        let second = toll.second.max(entry.second);
        Some(Toll { first, second })
    }
}
