// Plans of a periodic book, at its own capacity or at another.
ghost use Rattle.std.specs.Prelude.{◌≡◌, length};
ghost use Rattle.plans.specs.Plans.{list_after, levels_after};
ghost use Rattle.tally.specs.Tally.{trial as trying};
ghost use Rattle.tally.specs.Books.{after};
ghost use Rattle.tally.specs.Plans.{at_capacity, periodic_rows_of, periodic_plan, periodic_trial};
ghost use Rattle.book.specs.Views.{periodic_figures};

use super::PeriodicBook;
use crate::capacities::TrialCapacity;
use crate::rows::periodic_rows;
use crate::settings::capacity_fits;
use board::faults::Fault;
use cost::kinds::Kind;
use fronts::plan::plan;
use plans::figures::Figures;
use plans::states::State;

impl PeriodicBook {
    // The plan of the tasks that stand. The list of states and the levels buffer are lent: the fronts
    // are laid into the one, and the level of each port into the first 48 bytes of the other.
    pub fn plan<K: Kind>(
        &self,
        list: &mut [State<K>],
        levels: &mut [u8],
    ) -> Result<Figures<K>, Fault>
        ensures answer { result ≡ periodic_plan K.Kind.meaning (periodic_figures self.now) (length list.old) (length levels.old) }
        ensures list { list.new ≡ list_after K.Kind.meaning (periodic_rows_of K.Kind.meaning (periodic_figures self.now)) result list.old list.new }
        ensures levels { levels.new ≡ levels_after K.Kind.meaning (periodic_rows_of K.Kind.meaning (periodic_figures self.now)) result levels.old }
    {
        let rows = periodic_rows(&self.processor, &self.tasks, self.capacity.thousandths);
        plan(&rows, list, levels)
    }

    // The plan at a capacity of its own, in thousandths. The book has its own capacity again after it.
    pub fn trial<K: Kind>(
        &mut self,
        thousandths: u64,
        list: &mut [State<K>],
        levels: &mut [u8],
    ) -> Result<Figures<K>, Fault>
        ensures answer { result ≡ periodic_trial K.Kind.meaning (periodic_figures self.old) thousandths (length list.old) (length levels.old) }
        ensures book { periodic_figures self.new ≡ after (periodic_figures self.old) (trying thousandths) }
        ensures list { list.new ≡ list_after K.Kind.meaning (periodic_rows_of K.Kind.meaning (at_capacity (periodic_figures self.old) thousandths)) result list.old list.new }
        ensures levels { levels.new ≡ levels_after K.Kind.meaning (periodic_rows_of K.Kind.meaning (at_capacity (periodic_figures self.old) thousandths)) result levels.old }
    {
        if !capacity_fits(thousandths) {
            return Err(Fault::BadSetting);
        }
        let processor = self.processor;
        let tasks = self.tasks;
        let before = self.capacity.thousandths;
        self.capacity.thousandths = thousandths;
        let guard = TrialCapacity {
            record: &mut self.capacity,
            before,
        };
        let rows = periodic_rows(&processor, &tasks, guard.record.thousandths);
        plan(&rows, list, levels)
    }
}
