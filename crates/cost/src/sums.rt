// What holds of the sums of every kind.
ghost use Rattle.std.specs.Prelude.{◌≡◌};
ghost use Rattle.cost.specs.Kinds.{most_entries};
ghost use Rattle.cost.specs.Sums.{NeverDeclined, OrderKept, AnyOrder};

use crate::kinds::Kind;

// How many entries a total may have.
fn limit() -> usize
    ensures { result ≡ most_entries }
{
    48
}

// How many entries a total may have. Up to so many no sum is declined, one entry more keeps the order
// of two sums, and the entries may be added in any order.
pub fn entry_limit<K: Kind>() -> usize
    ensures answer { result ≡ most_entries }
    ensures never_declined { NeverDeclined K.Kind.meaning }
    ensures order_kept { OrderKept K.Kind.meaning }
    ensures any_order { AnyOrder K.Kind.meaning }
{
    limit()
}
