// The way back through the list of states, and the levels that it gives.
ghost use Rattle.std.specs.Prelude.{◌≡◌, ◌≤◌, map, length, Ok};
ghost use Rattle.plans.specs.declared.figures.Figures.{Figures};
ghost use Rattle.plans.specs.Plans.{laid, level_byte, levels_after};
ghost use Rattle.fronts.specs.Rows.{rows_of};
ghost use Rattle.fronts.specs.Views.{listed_rows};
ghost use Rattle.fronts.specs.Back.{FrontsStand, picked};

use crate::rows::Rows;
use cost::kinds::Kind;
use plans::states::State;

// The level that the plan gives each port, from port 1 on. `last` is the position of the first pair
// of the last front.
fn way_back<K: Kind>(rows: &Rows, list: &[State<K>], last: usize) -> [Option<u8>; 48]
    requires { FrontsStand K.Kind.meaning (rows_of K.Kind.meaning (listed_rows rows.now)) list.now last }
    ensures { result ≡ picked K.Kind.meaning (rows_of K.Kind.meaning (listed_rows rows.now)) }
{
    let mut picks: [Option<u8>; 48] = [None; 48];
    let mut position = last;
    for row in rows.rows().iter().rev() {
        let at = (row.port - 1) as usize;
        let state = list[position - 1];
        // what was picked for a port stays
        picks[at] = picks[at].or(Some(state.level));
        position = state.position;
    }
    picks
}

// The byte of a port in the levels buffer.
fn byte(level: Option<u8>) -> u8
    ensures { result ≡ level_byte level }
{
    level.unwrap_or(255)
}

// Writes the bytes of the ports to the front of the levels buffer.
fn write_levels(picks: &[Option<u8>; 48], levels: &mut [u8])
    requires { 48 ≤ length levels.old }
    ensures { levels.new ≡ laid 0 (map level_byte picks.now) levels.old }
{
    levels[..48].copy_from_slice(&picks.map(byte));
}

// Writes the levels of the plan to the levels buffer.
pub(crate) fn tell_levels<K: Kind>(rows: &Rows, list: &[State<K>], last: usize, levels: &mut [u8])
    requires stand { FrontsStand K.Kind.meaning (rows_of K.Kind.meaning (listed_rows rows.now)) list.now last }
    requires room { 48 ≤ length levels.old }
    ensures { (f : Figures K) → levels.new ≡ levels_after K.Kind.meaning (rows_of K.Kind.meaning (listed_rows rows.now)) (Ok f) levels.old }
{
    let picks = way_back::<K>(rows, list, last);
    write_levels(&picks, levels);
}
