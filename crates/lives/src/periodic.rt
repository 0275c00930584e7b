// Periodic books that live.
ghost use Rattle.std.specs.Prelude.{◌≡◌, length};
ghost use Rattle.plans.specs.Plans.{list_after, levels_after};
ghost use Rattle.tally.specs.Tally.{new_tally, trial as trying};
ghost use Rattle.tally.specs.Books.{book_figures, after};
ghost use Rattle.tally.specs.Plans.{periodic_rows_of};
ghost use Rattle.tally.specs.Lent.{lent, lent_plan, lent_trial, lent_after};
ghost use Rattle.lives.specs.Lives.{asked_book, asked_answer};
ghost use Rattle.board.specs.Views.{processor_figures};
ghost use Rattle.book.specs.Views.{periodic_figures};
ghost use Rattle.lives.specs.Rules.{periodic as by_period};
ghost use Rattle.lives.specs.Calls.{periodic_call};
ghost use Rattle.lives.specs.Fits.{periodic_fit};

use crate::books::Book;
use crate::calls::{PeriodicCall, Question};
use board::faults::Fault;
use board::processors::Processor;
use book::periodic::PeriodicBook;
use cost::kinds::Kind;
use plans::figures::Figures;
use plans::states::State;

// Plans in the first places of the list and the first bytes of the buffer, and lets the answer go.
fn plan_in<K: Kind>(
    book: &PeriodicBook,
    places: usize,
    bytes: usize,
    list: &mut [State<K>],
    levels: &mut [u8],
)
    ensures { lent list.new levels.new ≡ lent_after K.Kind.meaning (periodic_rows_of K.Kind.meaning) (periodic_figures book.now) (lent_plan places bytes) (lent list.old levels.old) (lent list.new levels.new) }
{
    let places = list.len().min(places);
    let bytes = levels.len().min(bytes);
    let _ = book.plan(&mut list[..places], &mut levels[..bytes]);
}

// A trial in the first places of the list and the first bytes of the buffer.
fn trial_in<K: Kind>(
    book: &mut PeriodicBook,
    thousandths: u64,
    places: usize,
    bytes: usize,
    list: &mut [State<K>],
    levels: &mut [u8],
)
    ensures book { periodic_figures book.new ≡ after (periodic_figures book.old) (trying thousandths) }
    ensures left { lent list.new levels.new ≡ lent_after K.Kind.meaning (periodic_rows_of K.Kind.meaning) (periodic_figures book.old) (lent_trial thousandths places bytes) (lent list.old levels.old) (lent list.new levels.new) }
{
    let places = list.len().min(places);
    let bytes = levels.len().min(bytes);
    let _ = book.trial(thousandths, &mut list[..places], &mut levels[..bytes]);
}

impl<'a> Book<PeriodicCall<'a>, Question> for PeriodicBook {
    ghost rule = { by_period };

    ghost figures = { periodic_figures };

    ghost meant = { periodic_call };

    ghost asked = { λ q. q };

    ghost fits = { periodic_fit };

    fn empty(processor: &Processor) -> PeriodicBook
        ensures { periodic_figures result ≡ book_figures (processor_figures processor.now) new_tally }
    {
        PeriodicBook::of(processor)
    }

    fn follow<K: Kind>(
        &mut self,
        call: &PeriodicCall<'a>,
        list: &mut [State<K>],
        levels: &mut [u8],
    ) {
        match call {
            PeriodicCall::Plan { places, bytes } => plan_in(self, *places, *bytes, list, levels),
            PeriodicCall::Admit {
                port,
                cycles,
                access,
                shares,
                period,
            } => {
                let _ = self.admit(*port, *cycles, *access, *shares, *period);
            }
            PeriodicCall::Retire { port } => {
                let _ = self.retire(*port);
            }
            PeriodicCall::Capacity { thousandths } => {
                let _ = self.capacity(*thousandths);
            }
            PeriodicCall::Trial {
                thousandths,
                places,
                bytes,
            } => trial_in(self, *thousandths, *places, *bytes, list, levels),
        }
    }

    fn ask<K: Kind>(
        &mut self,
        question: Question,
        list: &mut [State<K>],
        levels: &mut [u8],
    ) -> Result<Figures<K>, Fault>
        ensures answer { result ≡ asked_answer K.Kind.meaning (periodic_rows_of K.Kind.meaning) (periodic_figures self.old) question (length list.old) (length levels.old) }
        ensures book { periodic_figures self.new ≡ periodic_figures self.old }
        ensures list { list.new ≡ list_after K.Kind.meaning (periodic_rows_of K.Kind.meaning (asked_book (periodic_figures self.old) question)) result list.old list.new }
        ensures levels { levels.new ≡ levels_after K.Kind.meaning (periodic_rows_of K.Kind.meaning (asked_book (periodic_figures self.old) question)) result levels.old }
    {
        match question {
            Question::Plan => self.plan(list, levels),
            Question::Trial { thousandths } => self.trial(thousandths, list, levels),
        }
    }
}
