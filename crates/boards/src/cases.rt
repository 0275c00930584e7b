// The fourteen boards with known plans, each planned by the proved planner.
use crate::rows::{EXAMPLE, Plain, Setting, rows_of};
use board::dues::Due;
use board::processors::Processor;
use cost::energies::Energy;
use cost::kinds::Kind;
use cost::pairs::Pair;
use cost::peaks::Peak;
use fronts::plan::plan;
use fronts::rows::Rows;
use plan_lines::answers::PlanLine;
use plans::states::State;

// Plans the rows in a list of so many places, and prints cost, load, states and levels, or the refusal and
// its port.
fn print_plan<K: Kind>(
    rt: &HostRuntime,
    number: u64,
    rows: &Rows,
    places: usize,
) -> anyhow::Result<()> {
    let mut list = vec![in rt.alloc(); State::<K>::blank(); places]?;
    let mut levels = [0u8; 48];
    let answer = plan(rows, &mut list, &mut levels);
    let line = PlanLine(&answer, &levels);
    println!(rt; "{number}: {line}")?;
    Ok(())
}

// Cases 1 to 8: periodic tasks, at a capacity.
fn print_periodic(rt: &HostRuntime, processor: &Processor) -> anyhow::Result<()> {
    for (number, thousandths) in [(1, 1_000), (2, 900), (3, 500), (4, 499)] {
        let rows = rows_of(processor, &EXAMPLE, Setting::Capacity(thousandths))?;
        print_plan::<Energy>(rt, number, &rows, 12)?;
    }
    let at_1000 = rows_of(processor, &EXAMPLE, Setting::Capacity(1_000))?;
    let at_900 = rows_of(processor, &EXAMPLE, Setting::Capacity(900))?;
    print_plan::<Peak>(rt, 5, &at_1000, 12)?;
    print_plan::<Peak>(rt, 6, &at_900, 12)?;
    print_plan::<Pair<Energy, Peak>>(rt, 7, &at_900, 12)?;
    let twins = rows_of(processor, &[EXAMPLE[0]; 2], Setting::Capacity(700))?;
    print_plan::<Energy>(rt, 8, &twins, 12)
}

// Cases 9 to 12: sporadic tasks, at a clock.
fn print_sporadic(rt: &HostRuntime, processor: &Processor) -> anyhow::Result<()> {
    let first = Plain {
        cycles: 40_000,
        due: Due::Deadline(400),
    };
    let second = Plain {
        cycles: 30_000,
        due: Due::Deadline(550),
    };
    let board = [first, second];
    for (number, clock) in [(9, 0), (10, 1), (11, 200), (12, 201)] {
        let rows = rows_of(processor, &board, Setting::Clock(clock))?;
        print_plan::<Energy>(rt, number, &rows, 12)?;
    }
    Ok(())
}

// Cases 13 and 14: no tasks, and a list of 5 places for the board of case 1.
fn print_edges(rt: &HostRuntime, processor: &Processor) -> anyhow::Result<()> {
    let at_1000 = rows_of(processor, &EXAMPLE, Setting::Capacity(1_000))?;
    print_plan::<Energy>(rt, 13, &Rows::none(), 12)?;
    print_plan::<Energy>(rt, 14, &at_1000, 5)
}

// A line for each of the fourteen boards.
pub fn print_cases(rt: &HostRuntime, processor: &Processor) -> anyhow::Result<()> {
    println!(rt; "case: cost; load_us; states; levels")?;
    print_periodic(rt, processor)?;
    print_sporadic(rt, processor)?;
    print_edges(rt, processor)
}
