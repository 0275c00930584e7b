// Plans of a sporadic book.
ghost use Rattle.std.specs.Prelude.{◌≡◌, length};
ghost use Rattle.plans.specs.Plans.{list_after, levels_after};
ghost use Rattle.tally.specs.Plans.{sporadic_rows_of, sporadic_plan};
ghost use Rattle.book.specs.Views.{sporadic_figures};

use super::SporadicBook;
use crate::rows::sporadic_rows;
use board::faults::Fault;
use cost::kinds::Kind;
use fronts::plan::plan;
use plans::figures::Figures;
use plans::states::State;

impl SporadicBook {
    // The plan of the tasks that stand, at this time of the clock. The list of states and the levels
    // buffer are lent: the fronts are laid into the one, and the level of each port into the first 48
    // bytes of the other.
    pub fn plan<K: Kind>(
        &self,
        list: &mut [State<K>],
        levels: &mut [u8],
    ) -> Result<Figures<K>, Fault>
        ensures answer { result ≡ sporadic_plan K.Kind.meaning (sporadic_figures self.now) (length list.old) (length levels.old) }
        ensures list { list.new ≡ list_after K.Kind.meaning (sporadic_rows_of K.Kind.meaning (sporadic_figures self.now)) result list.old list.new }
        ensures levels { levels.new ≡ levels_after K.Kind.meaning (sporadic_rows_of K.Kind.meaning (sporadic_figures self.now)) result levels.old }
    {
        let rows = sporadic_rows(&self.processor, &self.tasks, self.clock);
        plan(&rows, list, levels)
    }
}
