// What a run has seen, and its summary.
use crate::answers::{Plan, Refusal};
use crate::expected::Expected;
use crate::figures::{Aim, Rule};
use std::{fmt, io};

// one more than the largest number of a refusal
const NUMBERS: usize = 34;

// one more than the most tasks of a board
const TASK_COUNTS: usize = 8;

// How many boards there were of each aim.
#[derive(Clone, Copy, Default)]
struct ByAim {
    energy: u64,
    peak: u64,
    both: u64,
    hot: u64,
}

impl ByAim {
    // One board more.
    fn note(&mut self, aim: Aim) {
        let boards = match aim {
            Aim::Energy => &mut self.energy,
            Aim::Peak => &mut self.peak,
            Aim::Both => &mut self.both,
            Aim::Hot => &mut self.hot,
        };
        one_more(boards);
    }
}

impl fmt::Display for ByAim {
    fn fmt<W: fmt::Write>(&self, f: &mut fmt::Formatter<W>) -> fmt::Result {
        let energy = self.energy;
        let peak = self.peak;
        let both = self.both;
        let hot = self.hot;
        write!(f, "energy {energy}, peak {peak}, both {both}, hot {hot}")
    }
}

// What was counted and answered, over all boards so far.
#[derive(Clone, Copy)]
pub struct Totals {
    periodic: ByAim,
    sporadic: ByAim,
    // boards with each number of standing tasks
    tasks: [u64; TASK_COUNTS],
    // choices that were counted
    choices: u64,
    // states that were counted
    states: u64,
    // counts whose best choice is dearer than one that passes a limit
    bound: u64,
    // counts with several choices that have the cost and the load of the best one
    tied: u64,
    // counts with a choice that has the cost of the best one and a larger load
    heavier: u64,
    // plans and trials that were given
    plans: u64,
    // refusals by their number
    refusals: [u64; NUMBERS],
}

// One more was seen.
fn one_more(times: &mut u64) {
    *times = times.saturating_add(1);
}

impl Totals {
    // Of no boards.
    pub fn none() -> Totals {
        Totals {
            periodic: ByAim::default(),
            sporadic: ByAim::default(),
            tasks: [0; TASK_COUNTS],
            choices: 0,
            states: 0,
            bound: 0,
            tied: 0,
            heavier: 0,
            plans: 0,
            refusals: [0; NUMBERS],
        }
    }

    // One board more, with so many standing tasks.
    pub fn note_board(&mut self, rule: Rule, aim: Aim, tasks: usize) {
        match rule {
            Rule::Periodic => self.periodic.note(aim),
            Rule::Sporadic => self.sporadic.note(aim),
        }
        if let Some(boards) = self.tasks.get_mut(tasks) {
            one_more(boards);
        }
    }

    // One count of all choices more.
    pub fn note_count(&mut self, expected: &Expected) {
        self.choices = self.choices.saturating_add(expected.choices as u64);
        if let Some(places) = &expected.places {
            self.states = self.states.saturating_add(places.len() as u64);
        }
        if let Some(best) = &expected.best {
            if best.sum.toll != expected.free {
                one_more(&mut self.bound);
            }
            if best.equals > 1 {
                one_more(&mut self.tied);
            }
            if best.heavier > 0 {
                one_more(&mut self.heavier);
            }
        }
    }

    // One plan more, given or refused.
    pub fn note_plan(&mut self, told: &Result<Plan, Refusal>) {
        if told.is_ok() {
            one_more(&mut self.plans);
        }
        self.note_answer(&told.map(|_| ()));
    }

    // One refusal more, if it is one.
    pub fn note_answer(&mut self, told: &Result<(), Refusal>) {
        if let Err(refusal) = told {
            if let Some(times) = self.refusals.get_mut(usize::from(refusal.number)) {
                one_more(times);
            }
        }
    }

    // A line for each number of standing tasks.
    fn print_tasks(&self, rt: &HostRuntime) -> io::Result<()> {
        for (tasks, boards) in self.tasks.iter().enumerate() {
            println!(rt; "boards with {tasks} standing: {boards}")?;
        }
        Ok(())
    }

    // A line for each refusal that came.
    fn print_refusals(&self, rt: &HostRuntime) -> io::Result<()> {
        for (number, times) in self.refusals.iter().enumerate() {
            if *times > 0 {
                println!(rt; "refused with {number}: {times}")?;
            }
        }
        Ok(())
    }

    // The summary of a run in which all agreed.
    pub fn print(&self, rt: &HostRuntime) -> io::Result<()> {
        let periodic = self.periodic;
        let sporadic = self.sporadic;
        println!(rt; "periodic boards: {periodic}")?;
        println!(rt; "sporadic boards: {sporadic}")?;
        self.print_tasks(rt)?;
        println!(rt; "choices counted: {}", self.choices)?;
        println!(rt; "states counted: {}", self.states)?;
        println!(rt; "best choices that a limit makes dearer: {}", self.bound)?;
        println!(rt; "best choices with an equal: {}", self.tied)?;
        println!(rt;
            "best choices with a heavier one at their cost: {}",
            self.heavier
        )?;
        println!(rt; "plans given: {}", self.plans)?;
        self.print_refusals(rt)
    }
}
