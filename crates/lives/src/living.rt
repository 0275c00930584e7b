// Whole lives of books.
ghost use Rattle.std.specs.Prelude.{◌≡◌, map};
ghost use Rattle.board.specs.Views.{processor_figures};
ghost use Rattle.tally.specs.Tally.{new_tally};
ghost use Rattle.tally.specs.Books.{book_figures};
ghost use Rattle.tally.specs.Boards.{Match};
ghost use Rattle.tally.specs.Lent.{lent, Leaves};
ghost use Rattle.tally.specs.Promises.{Agree};
ghost use Rattle.lives.specs.Rules.{rows_of};
ghost use Rattle.lives.specs.Lives.{lived, Life as LifeOf};

use crate::books::Book;
use board::faults::Fault;
use board::processors::Processor;
use cost::kinds::Kind;
use plans::figures::Figures;
use plans::states::State;

// A book at the end of a life, and what it answered then.
#[derive(Drop)]
pub struct Life<B, K> {
    pub book: B,
    pub plan: Result<Figures<K>, Fault>,
}

// Two lives.
#[derive(Drop)]
pub struct TwoLives<B, K> {
    pub first: Life<B, K>,
    pub second: Life<B, K>,
}

// The book after all the calls, from a new book on.
fn book_after<C, Q, B: Book<C, Q>, K: Kind>(
    processor: &Processor,
    calls: &[C],
    list: &mut [State<K>],
    levels: &mut [u8],
) -> B
    ensures book { B.figures result ≡ lived (processor_figures processor.now) (map B.meant calls.now) }
    ensures left { Leaves K.Kind.meaning (rows_of B.rule K.Kind.meaning) (book_figures (processor_figures processor.now) new_tally) (map B.meant calls.now) (lent list.old levels.old) (lent list.new levels.new) }
{
    let mut book = B::empty(processor);
    for call in calls {
        book.follow(call, list, levels);
    }
    book
}

// Lives one life: a new book of the processor follows the calls, whatever they are and whichever of them
// are declined, and is then asked.
pub fn live<C, Q, B: Book<C, Q>, K: Kind>(
    processor: &Processor,
    calls: &[C],
    question: Q,
    list: &mut [State<K>],
    levels: &mut [u8],
) -> Life<B, K>
    ensures { LifeOf K.Kind.meaning (rows_of B.rule K.Kind.meaning) (processor_figures processor.now) (map B.meant calls.now) (B.asked question) (lent list.old levels.old) (B.figures result.book) result.plan (lent list.new levels.new) }
{
    let mut book: B = book_after(processor, calls, list, levels);
    let plan = book.ask(question, list, levels);
    Life { book, plan }
}

// The two lives, one after the other.
fn live_twice<C, Q: Copy, B: Book<C, Q>, K: Kind>(
    processor: &Processor,
    calls: &[C],
    others: &[C],
    question: Q,
    list: &mut [State<K>],
    levels: &mut [u8],
    other_list: &mut [State<K>],
    other_levels: &mut [u8],
) -> TwoLives<B, K>
    ensures first { LifeOf K.Kind.meaning (rows_of B.rule K.Kind.meaning) (processor_figures processor.now) (map B.meant calls.now) (B.asked question) (lent list.old levels.old) (B.figures result.first.book) result.first.plan (lent list.new levels.new) }
    ensures second { LifeOf K.Kind.meaning (rows_of B.rule K.Kind.meaning) (processor_figures processor.now) (map B.meant others.now) (B.asked question) (lent other_list.old other_levels.old) (B.figures result.second.book) result.second.plan (lent other_list.new other_levels.new) }
{
    let first = live(processor, calls, question, list, levels);
    let second = live(processor, others, question, other_list, other_levels);
    TwoLives { first, second }
}

// Lives two lives of two new books of one processor, and asks both the same. If their tallies match,
// plans that both give have one cost and one load.
pub fn lives<C, Q: Copy, B: Book<C, Q>, K: Kind>(
    processor: &Processor,
    calls: &[C],
    others: &[C],
    question: Q,
    list: &mut [State<K>],
    levels: &mut [u8],
    other_list: &mut [State<K>],
    other_levels: &mut [u8],
) -> TwoLives<B, K>
    ensures first { LifeOf K.Kind.meaning (rows_of B.rule K.Kind.meaning) (processor_figures processor.now) (map B.meant calls.now) (B.asked question) (lent list.old levels.old) (B.figures result.first.book) result.first.plan (lent list.new levels.new) }
    ensures second { LifeOf K.Kind.meaning (rows_of B.rule K.Kind.meaning) (processor_figures processor.now) (map B.meant others.now) (B.asked question) (lent other_list.old other_levels.old) (B.figures result.second.book) result.second.plan (lent other_list.new other_levels.new) }
    ensures renumbered { Match (lived (processor_figures processor.now) (map B.meant calls.now)).tally (lived (processor_figures processor.now) (map B.meant others.now)).tally → Agree result.first.plan result.second.plan }
{
    live_twice(
        processor,
        calls,
        others,
        question,
        list,
        levels,
        other_list,
        other_levels,
    )
}
