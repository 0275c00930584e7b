// Two lives of each book, which end in the same board but for the numbers of the ports.
use board::processors::Processor;
use book::periodic::PeriodicBook;
use book::sporadic::SporadicBook;
use cost::energies::Energy;
use lives::books::Book;
use lives::calls::{PeriodicCall, Question, SporadicCall};
use lives::living::{TwoLives, lives};
use plan_lines::answers::PlanLine;
use plans::states::State;

// Admits a periodic task without access energy and devices.
fn periodic(port: u64, cycles: u64, period: u64) -> PeriodicCall<'static> {
    PeriodicCall::Admit {
        port,
        cycles,
        access: 0,
        shares: &[],
        period,
    }
}

// Admits a sporadic task without access energy and devices.
fn sporadic(port: u64, cycles: u64, deadline: u64) -> SporadicCall<'static> {
    SporadicCall::Admit {
        port,
        cycles,
        access: 0,
        shares: &[],
        deadline,
    }
}

// Lives two lives of a book, by the energy, and prints what they answer in one line.
fn print_two<C, Q: Copy, B: Book<C, Q>>(
    rt: &HostRuntime,
    name: &str,
    processor: &Processor,
    calls: &[C],
    others: &[C],
    question: Q,
) -> anyhow::Result<()> {
    let mut list = [State::<Energy>::blank(); 12];
    let mut other_list = [State::<Energy>::blank(); 12];
    let mut levels = [0u8; 48];
    let mut other_levels = [0u8; 48];
    let both: TwoLives<B, Energy> = lives(
        processor,
        calls,
        others,
        question,
        &mut list,
        &mut levels,
        &mut other_list,
        &mut other_levels,
    );
    let first = PlanLine(&both.first.plan, &levels);
    let second = PlanLine(&both.second.plan, &other_levels);
    println!(rt; "{name} lives: {first} and {second}")?;
    Ok(())
}

// In the second life a port is named twice, a task is taken off again, and a plan is made on the way.
fn print_periodic_lives(rt: &HostRuntime, processor: &Processor) -> anyhow::Result<()> {
    let capacity = PeriodicCall::Capacity { thousandths: 900 };
    let calls = [
        periodic(1, 40_000, 1_000),
        periodic(2, 30_000, 500),
        capacity,
    ];
    let others = [
        capacity,
        periodic(5, 30_000, 500),
        periodic(9, 40_000, 1_000),
        periodic(9, 1, 1_000),
        PeriodicCall::Plan {
            places: 12,
            bytes: 48,
        },
        PeriodicCall::Retire { port: 5 },
        periodic(2, 30_000, 500),
    ];
    print_two::<_, _, PeriodicBook>(rt, "periodic", processor, &calls, &others, Question::Plan)
}

// In the second life cycles are served.
fn print_sporadic_lives(rt: &HostRuntime, processor: &Processor) -> anyhow::Result<()> {
    let calls = [sporadic(1, 40_000, 400), sporadic(2, 30_000, 550)];
    let others = [
        sporadic(3, 50_000, 400),
        sporadic(40, 30_000, 550),
        SporadicCall::Serve {
            port: 3,
            cycles: 10_000,
        },
    ];
    print_two::<_, _, SporadicBook>(rt, "sporadic", processor, &calls, &others, ())
}

// A line for the two lives of each book.
pub fn print_lives(rt: &HostRuntime, processor: &Processor) -> anyhow::Result<()> {
    print_periodic_lives(rt, processor)?;
    print_sporadic_lives(rt, processor)
}
