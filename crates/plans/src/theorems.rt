// What holds of the definitions: the contract of each function is a theorem, and the function does nothing.
ghost use Rattle.std.specs.Prelude.{T};
ghost use Rattle.plans.specs.Promises.{BoardsHaveRows, OneFront, FrontFromFront, PlansBest, LevelsTold, NoneFitsExactly, Renumbered};
ghost use Rattle.plans.specs.Table.{boards_agree, boards};

use cost::kinds::Kind;

// The boards with known plans have them: answer, list of states and levels.
pub fn boards_hold()
    ensures { T (boards_agree boards) }
{}

// The rows of standing tasks are such that the other theorems apply.
pub fn boards_have_rows<K: Kind>()
    ensures { BoardsHaveRows K.Kind.meaning }
{}

// A front is the only list of its pairs with rising costs and falling loads.
pub fn front_is_one_list<K: Kind>()
    ensures { OneFront K.Kind.meaning }
{}

// The front of one row more is made from the front alone.
pub fn front_comes_from_front<K: Kind>()
    ensures { FrontFromFront K.Kind.meaning }
{}

// A plan that is given is a best choice, with that choice's cost and load.
pub fn plan_is_best<K: Kind>()
    ensures { PlansBest K.Kind.meaning }
{}

// None fits exactly if no choice keeps every limit.
pub fn none_fits_exactly<K: Kind>()
    ensures { NoneFitsExactly K.Kind.meaning }
{}

// The same tasks at other ports have plans of the same cost and load.
pub fn renumbered_plans_agree<K: Kind>()
    ensures { Renumbered K.Kind.meaning }
{}

// The levels buffer after a plan tells each row's level, by its port.
pub fn levels_tell_the_choice<K: Kind>()
    ensures { LevelsTold K.Kind.meaning }
{}
