// The fourteen boards with known plans, each kept in a book.
use board::faults::Fault;
use board::processors::Processor;
use book::periodic::PeriodicBook;
use book::sporadic::SporadicBook;
use cost::energies::Energy;
use cost::kinds::Kind;
use cost::pairs::Pair;
use cost::peaks::Peak;
use plan_lines::answers::PlanLine;
use plans::figures::Figures;
use plans::states::State;

// more places than any of these boards has states
pub const PLACES: usize = 12;

// A book with a task of 40,000 cycles every 1,000 µs at port 1, and one with these figures at port 2.
pub fn periodic_board(
    processor: &Processor,
    cycles: u64,
    period: u64,
    thousandths: u64,
) -> Result<PeriodicBook, Fault> {
    let mut book = PeriodicBook::of(processor);
    book.admit(1, 40_000, 0, &[], 1_000)?;
    book.admit(2, cycles, 0, &[], period)?;
    book.capacity(thousandths)?;
    Ok(book)
}

// A book with tasks of 40,000 and 30,000 cycles, admitted at clock 0 with these deadlines.
pub fn sporadic_board(
    processor: &Processor,
    first: u64,
    second: u64,
) -> Result<SporadicBook, Fault> {
    let mut book = SporadicBook::of(processor);
    book.admit(1, 40_000, 0, &[], first)?;
    book.admit(2, 30_000, 0, &[], second)?;
    Ok(book)
}

// A book that can be planned.
pub trait Planner {
    // The plan of what stands, in the list and the levels buffer.
    fn planned<K: Kind>(
        &self,
        list: &mut [State<K>],
        levels: &mut [u8],
    ) -> Result<Figures<K>, Fault>;
}

impl Planner for PeriodicBook {
    fn planned<K: Kind>(
        &self,
        list: &mut [State<K>],
        levels: &mut [u8],
    ) -> Result<Figures<K>, Fault> {
        self.plan(list, levels)
    }
}

impl Planner for SporadicBook {
    fn planned<K: Kind>(
        &self,
        list: &mut [State<K>],
        levels: &mut [u8],
    ) -> Result<Figures<K>, Fault> {
        self.plan(list, levels)
    }
}

// Plans the book in a list of so many places, and prints cost, load, states and levels, or the refusal and its
// port, behind the name of the case.
pub fn print_plan<K: Kind, B: Planner>(
    rt: &HostRuntime,
    case: &str,
    book: &B,
    places: usize,
) -> anyhow::Result<()> {
    let mut list = vec![in rt.alloc(); State::<K>::blank(); places]?;
    let mut levels = [0u8; 48];
    let answer = book.planned(&mut list, &mut levels);
    let line = PlanLine(&answer, &levels);
    println!(rt; "{case}: {line}")?;
    Ok(())
}

// The plan by the energy, in a list that is long enough.
fn print_energy<B: Planner>(rt: &HostRuntime, case: &str, book: &B) -> anyhow::Result<()> {
    print_plan::<Energy, B>(rt, case, book, PLACES)
}

// Cases 1 to 8: periodic tasks, at a capacity.
fn print_capacities(rt: &HostRuntime, processor: &Processor) -> anyhow::Result<()> {
    let mut board = periodic_board(processor, 30_000, 500, 1_000)?;
    for (case, thousandths) in [("1", 1_000), ("2", 900), ("3", 500), ("4", 499)] {
        board.capacity(thousandths)?;
        print_energy(rt, case, &board)?;
    }
    board.capacity(1_000)?;
    print_plan::<Peak, PeriodicBook>(rt, "5", &board, PLACES)?;
    board.capacity(900)?;
    print_plan::<Peak, PeriodicBook>(rt, "6", &board, PLACES)?;
    print_plan::<Pair<Energy, Peak>, PeriodicBook>(rt, "7", &board, PLACES)?;
    print_energy(rt, "8", &periodic_board(processor, 40_000, 1_000, 700)?)
}

// Cases 9 to 12: sporadic tasks, at a clock.
fn print_clocks(rt: &HostRuntime, processor: &Processor) -> anyhow::Result<()> {
    let mut board = sporadic_board(processor, 400, 550)?;
    for (case, time) in [("9", 0), ("10", 1), ("11", 200), ("12", 201)] {
        board.clock(time)?;
        print_energy(rt, case, &board)?;
    }
    Ok(())
}

// Cases 13 and 14: no tasks, and a list of 5 places for the board of case 1. Behind them the board whose
// first deadline binds: levels 0 and 0 would keep the last limit, and port 1 would be late.
fn print_edges(rt: &HostRuntime, processor: &Processor) -> anyhow::Result<()> {
    print_energy(rt, "13", &PeriodicBook::of(processor))?;
    let board = periodic_board(processor, 30_000, 500, 1_000)?;
    print_plan::<Energy, PeriodicBook>(rt, "14", &board, 5)?;
    let late = sporadic_board(processor, 399, 700)?;
    print_energy(rt, "deadlines 399 and 700", &late)
}

// A line for each of the boards.
pub fn print_cases(rt: &HostRuntime, processor: &Processor) -> anyhow::Result<()> {
    println!(rt; "case: cost; load_us; states; levels")?;
    print_capacities(rt, processor)?;
    print_clocks(rt, processor)?;
    print_edges(rt, processor)
}
