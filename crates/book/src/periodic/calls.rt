// What is entered in a periodic book.
ghost use Rattle.std.specs.Prelude.{◌≡◌};
ghost use Rattle.board.specs.declared.dues.Due.TheVariants.{Period};
ghost use Rattle.board.specs.Processors.{processor_made};
ghost use Rattle.board.specs.Views.{processor_figures};
ghost use Rattle.tally.specs.Tally.{new_tally, admit as admitting, retire as retiring, set_capacity};
ghost use Rattle.tally.specs.Books.{book_figures, opened, answer as answer_to, after};
ghost use Rattle.book.specs.Tasks.{task_of};
ghost use Rattle.book.specs.Views.{periodic_figures, periodic_view};

use super::PeriodicBook;
use crate::capacities::Capacity;
use crate::periods::hyperperiod_of;
use crate::ports::{free_place, taken_place, without};
use crate::settings::capacity_fits;
use crate::tasks::task_named;
use board::dues::Due;
use board::faults::Fault;
use board::levels::Level;
use board::processors::Processor;

impl PeriodicBook {
    // An empty book of the processor.
    pub fn of(processor: &Processor) -> PeriodicBook
        ensures { periodic_figures result ≡ book_figures (processor_figures processor.now) new_tally }
    {
        PeriodicBook {
            processor: *processor,
            tasks: [None; 48],
            capacity: Capacity { thousandths: 1000 },
        }
    }

    // An empty book of the processor with these levels, from level 0 on, and these devices.
    pub fn new(levels: &[Level], standby: &[u64]) -> Result<PeriodicBook, Fault>
        ensures { periodic_view result ≡ opened (processor_made (record { levels = levels.now; standby = standby.now })) }
    {
        let processor = Processor::new(levels, standby)?;
        Ok(PeriodicBook::of(&processor))
    }

    // Puts a task at a free port. Cycles and period (µs), access (nJ) and shares (thousandths) may be
    // of any size: they are judged here.
    pub fn admit(
        &mut self,
        port: u64,
        cycles: u64,
        access: u64,
        shares: &[u64],
        period: u64,
    ) -> Result<(), Fault>
        ensures answer { result ≡ answer_to (periodic_figures self.old) (admitting port (task_of cycles access shares.now (Period period))) }
        ensures book { periodic_figures self.new ≡ after (periodic_figures self.old) (admitting port (task_of cycles access shares.now (Period period))) }
    {
        let place = free_place(&self.tasks, port)?;
        let due = Due::Period(period);
        let task = task_named(&self.processor, port, 0, cycles, access, shares, due)?;
        let mut tasks = self.tasks;
        tasks[place] = Some(task);
        if hyperperiod_of(&tasks).is_none() {
            return Err(Fault::LongHyperperiod(port));
        }
        self.tasks = tasks;
        Ok(())
    }

    // Takes the task off its port.
    pub fn retire(&mut self, port: u64) -> Result<(), Fault>
        ensures answer { result ≡ answer_to (periodic_figures self.old) (retiring port) }
        ensures book { periodic_figures self.new ≡ after (periodic_figures self.old) (retiring port) }
    {
        let place = taken_place(&self.tasks, port)?;
        self.tasks = without(&self.tasks, place);
        Ok(())
    }

    // Sets the capacity, in thousandths.
    pub fn capacity(&mut self, thousandths: u64) -> Result<(), Fault>
        ensures answer { result ≡ answer_to (periodic_figures self.old) (set_capacity thousandths) }
        ensures book { periodic_figures self.new ≡ after (periodic_figures self.old) (set_capacity thousandths) }
    {
        if !capacity_fits(thousandths) {
            return Err(Fault::BadSetting);
        }
        self.capacity.thousandths = thousandths;
        Ok(())
    }
}
