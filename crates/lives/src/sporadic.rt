// Sporadic books that live. They are asked for a plan, and there is nothing to choose.
ghost use Rattle.std.specs.Prelude.{◌≡◌, length};
ghost use Rattle.board.specs.Views.{processor_figures};
ghost use Rattle.plans.specs.Plans.{list_after, levels_after};
ghost use Rattle.tally.specs.Tally.{new_tally};
ghost use Rattle.tally.specs.Books.{book_figures};
ghost use Rattle.tally.specs.Plans.{sporadic_rows_of, sporadic_plan};
ghost use Rattle.tally.specs.Lent.{lent, lent_plan, lent_after};
ghost use Rattle.book.specs.Views.{sporadic_figures};
ghost use Rattle.lives.specs.declared.calls.Question.TheVariants.{Plan};
ghost use Rattle.lives.specs.Rules.{sporadic as by_deadline};
ghost use Rattle.lives.specs.Calls.{sporadic_call};
ghost use Rattle.lives.specs.Fits.{sporadic_fit};

use crate::books::Book;
use crate::calls::SporadicCall;
use board::faults::Fault;
use board::processors::Processor;
use book::sporadic::SporadicBook;
use cost::kinds::Kind;
use plans::figures::Figures;
use plans::states::State;

// Plans in the first places of the list and the first bytes of the buffer, and lets the answer go.
fn plan_in<K: Kind>(
    book: &SporadicBook,
    places: usize,
    bytes: usize,
    list: &mut [State<K>],
    levels: &mut [u8],
)
    ensures { lent list.new levels.new ≡ lent_after K.Kind.meaning (sporadic_rows_of K.Kind.meaning) (sporadic_figures book.now) (lent_plan places bytes) (lent list.old levels.old) (lent list.new levels.new) }
{
    let places = list.len().min(places);
    let bytes = levels.len().min(bytes);
    let _ = book.plan(&mut list[..places], &mut levels[..bytes]);
}

impl<'a> Book<SporadicCall<'a>, ()> for SporadicBook {
    ghost rule = { by_deadline };

    ghost figures = { sporadic_figures };

    ghost meant = { sporadic_call };

    ghost asked = { λ q. Plan };

    ghost fits = { sporadic_fit };

    fn empty(processor: &Processor) -> SporadicBook
        ensures { sporadic_figures result ≡ book_figures (processor_figures processor.now) new_tally }
    {
        SporadicBook::of(processor)
    }

    fn follow<K: Kind>(
        &mut self,
        call: &SporadicCall<'a>,
        list: &mut [State<K>],
        levels: &mut [u8],
    ) {
        match call {
            SporadicCall::Plan { places, bytes } => plan_in(self, *places, *bytes, list, levels),
            SporadicCall::Admit {
                port,
                cycles,
                access,
                shares,
                deadline,
            } => {
                let _ = self.admit(*port, *cycles, *access, *shares, *deadline);
            }
            SporadicCall::Retire { port } => {
                let _ = self.retire(*port);
            }
            SporadicCall::Serve { port, cycles } => {
                let _ = self.serve(*port, *cycles);
            }
            SporadicCall::Clock { time } => {
                let _ = self.clock(*time);
            }
        }
    }

    fn ask<K: Kind>(
        &mut self,
        _question: (),
        list: &mut [State<K>],
        levels: &mut [u8],
    ) -> Result<Figures<K>, Fault>
        ensures answer { result ≡ sporadic_plan K.Kind.meaning (sporadic_figures self.old) (length list.old) (length levels.old) }
        ensures book { sporadic_figures self.new ≡ sporadic_figures self.old }
        ensures list { list.new ≡ list_after K.Kind.meaning (sporadic_rows_of K.Kind.meaning (sporadic_figures self.old)) result list.old list.new }
        ensures levels { levels.new ≡ levels_after K.Kind.meaning (sporadic_rows_of K.Kind.meaning (sporadic_figures self.old)) result levels.old }
    {
        self.plan(list, levels)
    }
}
