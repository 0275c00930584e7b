// The interface of a book that can live a life.
ghost use Rattle.std.specs.Prelude.{◌≡◌, length};
ghost use Rattle.board.specs.Views.{processor_figures};
ghost use Rattle.plans.specs.Plans.{planned, list_after, levels_after};
ghost use Rattle.tally.specs.Tally.{new_tally};
ghost use Rattle.tally.specs.Books.{BookFigures, book_figures, after};
ghost use Rattle.tally.specs.Lent.{LentCall, lent, lent_after};
ghost use Rattle.lives.specs.declared.calls.Question.{Question as Asked};
ghost use Rattle.lives.specs.Rules.{Rule, rows_of, Fit};
ghost use Rattle.lives.specs.Lives.{asked_book, asked_answer};

use board::faults::Fault;
use board::processors::Processor;
use cost::kinds::Kind;
use plans::figures::Figures;
use plans::states::State;

// A book that follows calls C, and is asked a question Q at the end of its life.
pub trait Book<C, Q>: Drop {
    // the rule by which its rows are made
    ghost rule: { Rule };

    // what it stands for
    ghost figures: { Self → BookFigures };

    // what its calls stand for, and what it is asked
    ghost meant: { C → LentCall };

    ghost asked: { Q → Asked };

    // An empty book of the processor.
    fn empty(processor: &Processor) -> Self
        ensures { figures result ≡ book_figures (processor_figures processor.now) new_tally };

    // Makes one call and lets its answer go. A plan or a trial is made in the part of the list and the buffer
    // that the call may use.
    fn follow<K: Kind>(&mut self, call: &C, list: &mut [State<K>], levels: &mut [u8])
        ensures book { figures self.new ≡ after (figures self.old) (meant call.now).call }
        ensures left { lent list.new levels.new ≡ lent_after K.Kind.meaning (rows_of rule K.Kind.meaning) (figures self.old) (meant call.now) (lent list.old levels.old) (lent list.new levels.new) };

    // Makes the plan or the trial that is asked for.
    fn ask<K: Kind>(
        &mut self,
        question: Q,
        list: &mut [State<K>],
        levels: &mut [u8],
    ) -> Result<Figures<K>, Fault>
        ensures answer { result ≡ asked_answer K.Kind.meaning (rows_of rule K.Kind.meaning) (figures self.old) (asked question) (length list.old) (length levels.old) }
        ensures book { figures self.new ≡ figures self.old }
        ensures list { list.new ≡ list_after K.Kind.meaning (rows_of rule K.Kind.meaning (asked_book (figures self.old) (asked question))) result list.old list.new }
        ensures levels { levels.new ≡ levels_after K.Kind.meaning (rows_of rule K.Kind.meaning (asked_book (figures self.old) (asked question))) result levels.old };

    // each book is fit to be planned
    ghost fits: { (b : Self) → Fit rule (figures b) };
}
