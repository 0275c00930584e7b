// What is entered in a sporadic book.
ghost use Rattle.std.specs.Prelude.{◌≡◌};
ghost use Rattle.board.specs.declared.dues.Due.TheVariants.{Deadline};
ghost use Rattle.board.specs.Processors.{processor_made};
ghost use Rattle.board.specs.Views.{processor_figures};
ghost use Rattle.tally.specs.Tally.{new_tally, admit as admitting, retire as retiring, serve as serving, set_clock};
ghost use Rattle.tally.specs.Books.{book_figures, opened, answer as answer_to, after};
ghost use Rattle.book.specs.Tasks.{task_of};
ghost use Rattle.book.specs.Views.{sporadic_figures, sporadic_view};

use super::SporadicBook;
use crate::ports::{free_place, taken_place, without};
use crate::serving::rest_of;
use crate::settings::clock_fits;
use crate::tasks::task_named;
use board::dues::Due;
use board::faults::Fault;
use board::levels::Level;
use board::processors::Processor;

impl SporadicBook {
    // An empty book of the processor.
    pub fn of(processor: &Processor) -> SporadicBook
        ensures { sporadic_figures result ≡ book_figures (processor_figures processor.now) new_tally }
    {
        SporadicBook {
            processor: *processor,
            tasks: [None; 48],
            clock: 0,
        }
    }

    // An empty book of the processor with these levels, from level 0 on, and these devices.
    pub fn new(levels: &[Level], standby: &[u64]) -> Result<SporadicBook, Fault>
        ensures { sporadic_view result ≡ opened (processor_made (record { levels = levels.now; standby = standby.now })) }
    {
        let processor = Processor::new(levels, standby)?;
        Ok(SporadicBook::of(&processor))
    }

    // Puts a task at a free port. Cycles, access (nJ), shares (thousandths) and deadline (µs on the
    // book's clock) may be of any size: they are judged here.
    pub fn admit(
        &mut self,
        port: u64,
        cycles: u64,
        access: u64,
        shares: &[u64],
        deadline: u64,
    ) -> Result<(), Fault>
        ensures answer { result ≡ answer_to (sporadic_figures self.old) (admitting port (task_of cycles access shares.now (Deadline deadline))) }
        ensures book { sporadic_figures self.new ≡ after (sporadic_figures self.old) (admitting port (task_of cycles access shares.now (Deadline deadline))) }
    {
        let place = free_place(&self.tasks, port)?;
        let clock = self.clock;
        let due = Due::Deadline(deadline);
        let task = task_named(&self.processor, port, clock, cycles, access, shares, due)?;
        self.tasks[place] = Some(task);
        Ok(())
    }

    // Takes the task off its port.
    pub fn retire(&mut self, port: u64) -> Result<(), Fault>
        ensures answer { result ≡ answer_to (sporadic_figures self.old) (retiring port) }
        ensures book { sporadic_figures self.new ≡ after (sporadic_figures self.old) (retiring port) }
    {
        let place = taken_place(&self.tasks, port)?;
        self.tasks = without(&self.tasks, place);
        Ok(())
    }

    // Takes cycles off the port's task, and the task off once it has none left.
    pub fn serve(&mut self, port: u64, cycles: u64) -> Result<(), Fault>
        ensures answer { result ≡ answer_to (sporadic_figures self.old) (serving port cycles) }
        ensures book { sporadic_figures self.new ≡ after (sporadic_figures self.old) (serving port cycles) }
    {
        let place = taken_place(&self.tasks, port)?;
        let standing = self.tasks[place];
        let rest = rest_of(standing, port, cycles)?;
        self.tasks[place] = rest;
        Ok(())
    }

    // Sets the clock, in µs.
    pub fn clock(&mut self, time: u64) -> Result<(), Fault>
        ensures answer { result ≡ answer_to (sporadic_figures self.old) (set_clock time) }
        ensures book { sporadic_figures self.new ≡ after (sporadic_figures self.old) (set_clock time) }
    {
        if !clock_fits(self.clock, time) {
            return Err(Fault::BadSetting);
        }
        self.clock = time;
        Ok(())
    }
}
