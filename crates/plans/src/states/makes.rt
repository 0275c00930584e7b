// Making a place of a list.
ghost use Rattle.std.specs.Prelude.{◌≡◌};

use super::State;
use cost::kinds::Kind;

impl<K: Kind> State<K> {
    // A place before any plan: a list is made of such.
    pub fn blank() -> State<K>
        ensures { result ≡ record { load = 0; cost = K.Kind.meaning.none; level = 0; position = 0 } }
    {
        State {
            load: 0,
            cost: K::zero(),
            level: 0,
            position: 0,
        }
    }
}
