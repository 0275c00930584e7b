// The interfaces of a kind of cost.
ghost use Rattle.std.specs.Prelude.{◌≡◌, ℕ, List};
ghost use Rattle.std.specs.List.{slice_get};
ghost use Rattle.cost.specs.Kinds.{Meaning, Laws, StrictLaws, unless_declined};

use board::measures::Measure;

// A kind of cost: a value is the cost of a choice, or of a part of it.
pub trait Kind: Copy {
    // the sign of the kind in a job text
    const LETTER: u8;

    ghost LETTER: { ℕ };

    // what the calls below answer
    ghost meaning: { Meaning Self };

    // what is printed of a cost, from the first number on
    ghost numbers: { Self → List ℕ };

    // The number at place i, from 0 on; none past the last.
    fn number(&self, i: usize) -> Option<u64>
        ensures { result ≡ slice_get (numbers self.now) i };

    // The entry of a measure; none if it is declined, as no measure of an offered level is.
    fn price(m: &Measure) -> Option<Self>
        ensures { result ≡ unless_declined (meaning.prices m.now) (meaning.worth m.now) };

    // The cost of nothing.
    fn zero() -> Self
        ensures { result ≡ meaning.none };

    // The sum; none if it is declined, as no sum of at most 48 entries is.
    fn add(self, other: Self) -> Option<Self>
        ensures { result ≡ unless_declined (meaning.adds self other) (meaning.plus self other) };

    // Whether this cost is no dearer than the other.
    fn no_dearer(&self, other: &Self) -> bool
        ensures { result ≡ meaning.under self.now other.now };

    ghost laws: { Laws meaning };
}

// A kind that keeps a difference when the same is added to both costs. The first of a pair is one.
pub trait StrictKind: Kind {
    ghost strict: { StrictLaws Self.meaning };
}
