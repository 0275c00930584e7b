// The kind b: two kinds, the first compared before the second.
ghost use Rattle.std.specs.Prelude.{◌≡◌, min, ◌++◌, length};
ghost use Rattle.cost.specs.Models.{paired};
ghost use Rattle.cost.specs.Paired.{pair_laws};

use crate::kinds::{Kind, StrictKind};
use board::measures::Measure;

// A cost of each.
#[derive(Clone, Copy)]
pub struct Pair<A, B> {
    pub first: A,
    pub second: B,
}

impl<A: StrictKind, B: Kind> Kind for Pair<A, B> {
    const LETTER: u8 = b'b';

    ghost LETTER = { 98 };

    ghost meaning = { paired A.meaning B.meaning };

    ghost numbers = { λ p. A.numbers p.first ++ B.numbers p.second };

    ghost laws = { pair_laws A.meaning B.meaning A.strict B.laws };

    fn number(&self, i: usize) -> Option<u64> {
        self.first
            .number(i)
            .or_else(|| self.second.number(i - count(&self.first, i)))
    }

    fn price(m: &Measure) -> Option<Pair<A, B>> {
        let first = A::price(m)?;
        let second = B::price(m)?;
        Some(Pair { first, second })
    }

    fn zero() -> Pair<A, B> {
        Pair {
            first: A::zero(),
            second: B::zero(),
        }
    }

    fn add(self, other: Pair<A, B>) -> Option<Pair<A, B>> {
        let first = self.first.add(other.first)?;
        let second = self.second.add(other.second)?;
        Some(Pair { first, second })
    }

    fn no_dearer(&self, other: &Pair<A, B>) -> bool {
        self.first.no_dearer(&other.first)
            && (!other.first.no_dearer(&self.first) || self.second.no_dearer(&other.second))
    }
}

// How many numbers the cost has, counted no further than `most`. As a chain, `take_while` and `count`
// over the range, the proof did not close: nothing is known there of the calls at a type parameter.
fn count<K: Kind>(cost: &K, most: usize) -> usize
    ensures { result ≡ min most (length (K.numbers cost.now)) }
{
    for i in 0..most {
        if cost.number(i).is_none() {
            return i;
        }
    }
    most
}
