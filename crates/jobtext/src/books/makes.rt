// Making the calls of a job.
ghost use Rattle.std.specs.Prelude.{◌≡◌, true, length};
ghost use Rattle.board.specs.Views.{processor_figures};
ghost use Rattle.plans.specs.Plans.{planned, list_after, levels_after};
ghost use Rattle.tally.specs.Tally.{admit as admitting, retire as retiring, serve as serving, set_capacity, set_clock};
ghost use Rattle.tally.specs.Books.{answer as answer_to, after};
ghost use Rattle.tally.specs.Plans.{at_capacity, periodic_rows_of, periodic_trial};
ghost use Rattle.book.specs.Tasks.{task_of};
ghost use Rattle.jobtext.specs.declared.headers.Rule.TheVariants as rules;
ghost use Rattle.jobtext.specs.Calls.{due_at, takes};
ghost use Rattle.jobtext.specs.Books.{job_book, booked, book_view};
ghost use Rattle.jobtext.specs.Made.{rows_in, made, no_levels, Changed, Comes};
ghost use Rattle.jobtext.specs.Places.{call_figures, word_in};

use super::Book;
use crate::calls::JobCall;
use crate::headers::Rule;
use board::faults::Fault;
use board::processors::Processor;
use book::periodic::PeriodicBook;
use book::sporadic::SporadicBook;
use cost::kinds::Kind;
use plans::figures::Figures;
use plans::states::State;

impl Book {
    // An empty book of this rule.
    pub(crate) fn of(rule: Rule, processor: &Processor) -> Book
        ensures { book_view result ≡ booked rule (processor_figures processor.now) }
    {
        match rule {
            Rule::Periodic => Book::Periodic(PeriodicBook::of(processor)),
            Rule::Sporadic => Book::Sporadic(SporadicBook::of(processor)),
        }
    }

    pub(crate) fn rule(&self) -> Rule
        ensures { result ≡ (book_view self.now).rule }
    {
        match self {
            Book::Periodic(_) => Rule::Periodic,
            Book::Sporadic(_) => Rule::Sporadic,
        }
    }

    // Puts a task at a free port. `time` is its period or its deadline in µs.
    fn admit(
        &mut self,
        port: u64,
        cycles: u64,
        access: u64,
        shares: &[u64],
        time: u64,
    ) -> Result<(), Fault>
        ensures answer { result ≡ answer_to (book_view self.old).figures (admitting port (task_of cycles access shares.now (due_at (book_view self.old).rule time))) }
        ensures book { book_view self.new ≡ job_book (book_view self.old).rule (after (book_view self.old).figures (admitting port (task_of cycles access shares.now (due_at (book_view self.old).rule time)))) }
    {
        match self {
            Book::Periodic(book) => book.admit(port, cycles, access, shares, time),
            Book::Sporadic(book) => book.admit(port, cycles, access, shares, time),
        }
    }

    // Takes the task off its port.
    fn retire(&mut self, port: u64) -> Result<(), Fault>
        ensures answer { result ≡ answer_to (book_view self.old).figures (retiring port) }
        ensures book { book_view self.new ≡ job_book (book_view self.old).rule (after (book_view self.old).figures (retiring port)) }
    {
        match self {
            Book::Periodic(book) => book.retire(port),
            Book::Sporadic(book) => book.retire(port),
        }
    }

    // The plan of what stands.
    fn plan<K: Kind>(&self, list: &mut [State<K>], levels: &mut [u8]) -> Result<Figures<K>, Fault>
        ensures answer { result ≡ planned K.Kind.meaning (length list.old) (length levels.old) (rows_in K.Kind.meaning (book_view self.now)) }
        ensures list { list.new ≡ list_after K.Kind.meaning (rows_in K.Kind.meaning (book_view self.now)) result list.old list.new }
        ensures levels { levels.new ≡ levels_after K.Kind.meaning (rows_in K.Kind.meaning (book_view self.now)) result levels.old }
    {
        match self {
            Book::Periodic(book) => book.plan(list, levels),
            Book::Sporadic(book) => book.plan(list, levels),
        }
    }

    // Sets the capacity of a periodic book, in thousandths.
    fn capacity(&mut self, thousandths: u64) -> Result<(), Fault>
        requires { (book_view self.old).rule ≡ rules.Periodic }
        ensures answer { result ≡ answer_to (book_view self.old).figures (set_capacity thousandths) }
        ensures book { book_view self.new ≡ job_book (book_view self.old).rule (after (book_view self.old).figures (set_capacity thousandths)) }
    {
        match self {
            Book::Periodic(book) => book.capacity(thousandths),
            Book::Sporadic(_) => unreachable(),
        }
    }

    // The plan of what stands in a periodic book, at a capacity of its own in thousandths.
    fn trial<K: Kind>(
        &mut self,
        thousandths: u64,
        list: &mut [State<K>],
        levels: &mut [u8],
    ) -> Result<Figures<K>, Fault>
        requires { (book_view self.old).rule ≡ rules.Periodic }
        ensures answer { result ≡ periodic_trial K.Kind.meaning (book_view self.old).figures thousandths (length list.old) (length levels.old) }
        ensures book { book_view self.new ≡ book_view self.old }
        ensures list { list.new ≡ list_after K.Kind.meaning (periodic_rows_of K.Kind.meaning (at_capacity (book_view self.old).figures thousandths)) result list.old list.new }
        ensures levels { levels.new ≡ levels_after K.Kind.meaning (periodic_rows_of K.Kind.meaning (at_capacity (book_view self.old).figures thousandths)) result levels.old }
    {
        match self {
            Book::Periodic(book) => book.trial(thousandths, list, levels),
            Book::Sporadic(_) => unreachable(),
        }
    }

    // Takes cycles off the port's task in a sporadic book.
    fn serve(&mut self, port: u64, cycles: u64) -> Result<(), Fault>
        requires { (book_view self.old).rule ≡ rules.Sporadic }
        ensures answer { result ≡ answer_to (book_view self.old).figures (serving port cycles) }
        ensures book { book_view self.new ≡ job_book (book_view self.old).rule (after (book_view self.old).figures (serving port cycles)) }
    {
        match self {
            Book::Periodic(_) => unreachable(),
            Book::Sporadic(book) => book.serve(port, cycles),
        }
    }

    // Sets the clock of a sporadic book, in µs.
    fn clock(&mut self, time: u64) -> Result<(), Fault>
        requires { (book_view self.old).rule ≡ rules.Sporadic }
        ensures answer { result ≡ answer_to (book_view self.old).figures (set_clock time) }
        ensures book { book_view self.new ≡ job_book (book_view self.old).rule (after (book_view self.old).figures (set_clock time)) }
    {
        match self {
            Book::Periodic(_) => unreachable(),
            Book::Sporadic(book) => book.clock(time),
        }
    }

    // Makes a call that changes what stands.
    fn change(&mut self, call: JobCall) -> Result<(), Fault>
        requires { takes (book_view self.old).rule (word_in call) ≡ true }
        ensures { Changed (book_view self.old) (call_figures (book_view self.old).rule call) result (book_view self.new) }
    {
        match call {
            JobCall::Admit {
                port,
                cycles,
                access,
                time,
                shares,
            } => self.admit(port, cycles, access, shares.items(), time),
            JobCall::Retire { port } => self.retire(port),
            JobCall::Capacity { thousandths } => self.capacity(thousandths),
            JobCall::Serve { port, cycles } => self.serve(port, cycles),
            JobCall::Clock { time } => self.clock(time),
            JobCall::Plan | JobCall::Trial { .. } => Ok(()),
        }
    }

    // Makes a call; a plan or a trial, which has figures, is made in the list and the buffer.
    pub(crate) fn make<K: Kind>(
        &mut self,
        call: JobCall,
        list: &mut [State<K>],
        levels: &mut [u8],
    ) -> Result<Option<Figures<K>>, Fault>
        requires taken { takes (book_view self.old).rule (word_in call) ≡ true }
        requires blank { levels.old ≡ no_levels }
        ensures { Comes (made K.Kind.meaning (length list.old) (book_view self.old) (call_figures (book_view self.old).rule call)) result (book_view self.new) levels.new list.old list.new }
    {
        match call {
            JobCall::Plan => self.plan(list, levels).map(Some),
            JobCall::Trial { thousandths } => self.trial(thousandths, list, levels).map(Some),
            _ => self.change(call).map(|()| None),
        }
    }
}
