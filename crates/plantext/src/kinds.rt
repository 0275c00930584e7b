// The kinds that job text names.
ghost use Rattle.std.specs.Prelude.{◌≤◌, length};
ghost use Rattle.std.proofs.Common.{rules};

use cost::energies::Energy;
use cost::kinds::Kind;
use cost::pairs::Pair;
use cost::peaks::Peak;

// A kind that job text has: a cost is at most two numbers, so that an answer always fits 256 bytes.
pub trait JobKind: Kind {
    ghost few: { (c : Self) → length (Self.Kind.numbers c) ≤ 2 };
}

impl JobKind for Energy {
    ghost few = { Prim.search rules };
}

impl JobKind for Peak {
    ghost few = { Prim.search rules };
}

impl JobKind for Pair<Energy, Peak> {
    ghost few = { Prim.search rules };
}
