// A board goes into a book, is planned, and every answer is compared with the count.
use crate::answers::{BUFFER_BYTES, MARK, Plan, Refusal, plain};
use crate::beginnings::all_beginnings;
use crate::books::Book;
use crate::differences::{Difference, Figure, Repeat, agree, agree_on_answer, agree_on_cost};
use crate::expected::{Expected, compare_refusal, count_board};
use crate::figures::{Board, Step};
use crate::ledger::Ledger;
use crate::places::{Place, first_without_room};
use crate::tolls::Toll;
use crate::totals::Totals;
use cost::kinds::Kind;
use plans::states::State;
use std::alloc::Global;

// What is asked of a book besides its plan.
#[derive(Clone, Copy)]
pub struct Extras {
    // plans in lists that are just long enough and too short
    pub lists: bool,
    // a trial of a periodic book at this capacity, in thousandths
    pub trial: Option<u64>,
    // a plan with a levels buffer of 47 bytes
    pub buffer: bool,
}

// What a plan answered, and what it wrote.
#[derive(Clone, Copy, PartialEq, Eq)]
struct Written {
    told: Result<Plan, Refusal>,
    levels: [u8; BUFFER_BYTES],
}

// the load in µs of a place that no plan has written yet
const BLANK_LOAD: u64 = 7;

// A book, and what should stand in it.
#[derive(Drop)]
struct Filled<B> {
    book: B,
    ledger: Ledger,
}

// An error unless both plans answered and wrote the same.
fn agree_on_plans(repeat: Repeat, one: &Written, other: &Written) -> Result<(), Difference> {
    if *one == *other {
        return Ok(());
    }
    Err(Difference::Plans(repeat))
}

// Makes the calls of the board in a new book, and compares every answer.
fn fill<B: Book>(
    heap: Global,
    board: &Board,
    totals: &mut Totals,
) -> Result<Filled<B>, Difference> {
    let mut ledger = Ledger::empty(heap);
    let mut book = B::open(board).map_err(|fault| Difference::Answer {
        told: Err(Refusal::from(fault)),
        counted: Ok(()),
    })?;
    for step in board.steps.iter() {
        let counted = ledger.answer_to(board, step);
        let told = book.change(step).map_err(Refusal::from);
        agree_on_answer(told, counted)?;
        totals.note_answer(&told);
        if counted.is_ok() {
            ledger.enter(board, step)?;
        }
    }
    Ok(Filled { book, ledger })
}

// The place of the list is the one that was counted.
fn compare_place<K: Kind>(state: &State<K>, place: &Place) -> Result<(), Difference> {
    agree(Figure::ListLoad, state.load, place.sum.load)?;
    agree_on_cost(Toll::of(&state.cost), place.sum.toll)?;
    agree(
        Figure::ListLevel,
        u64::from(state.level),
        place.level as u64,
    )?;
    agree(
        Figure::ListPosition,
        state.position as u64,
        place.position as u64,
    )
}

// No plan has written these places.
fn compare_blank<K: Kind>(list: &[State<K>]) -> Result<(), Difference> {
    for state in list {
        agree(Figure::ListLoad, state.load, BLANK_LOAD)?;
    }
    Ok(())
}

// The list has the fronts that were counted, and is as it was behind them, or wholly if no plan was given.
fn compare_list<K: Kind>(
    expected: &Expected,
    told: &Result<Plan, Refusal>,
    list: &[State<K>],
) -> Result<(), Difference> {
    let states = told.map_or(0, |plan| plan.states.min(list.len()));
    compare_blank(&list[states..])?;
    if let Some(places) = &expected.places {
        for (state, place) in list.iter().zip(places.iter()) {
            compare_place(state, place)?;
        }
    }
    Ok(())
}

// A board in a book, what should stand there, and the list that the book is planned in.
#[derive(Drop)]
struct Case<'a, K, B> {
    heap: Global,
    board: &'a Board,
    book: B,
    ledger: Ledger,
    // long enough for every plan
    list: Vec<State<K>>,
    totals: &'a mut Totals,
}

impl<K: Kind, B: Book> Case<'_, K, B> {
    // The plan in so many places of the list, or in all if it has no more.
    fn plan_in(&mut self, places: usize) -> Written {
        let places = places.min(self.list.len());
        let mut levels = [MARK; BUFFER_BYTES];
        let told = plain(self.book.planned(&mut self.list[..places], &mut levels));
        self.totals.note_plan(&told);
        Written { told, levels }
    }

    fn plan_in_all(&mut self) -> Written {
        let all = self.list.len();
        self.plan_in(all)
    }

    // A list of so many places is too short: the refusal names this port.
    fn compare_short(&mut self, places: usize, port: u64) -> Result<(), Difference> {
        let short = self.plan_in(places);
        compare_refusal(&short.told, Refusal { number: 33, port }, &short.levels)
    }

    // A list that is just long enough gives the same plan, and shorter ones none. Where none fits, it is said so
    // with no list at all.
    fn compare_lists(&mut self, expected: &Expected, plan: &Written) -> Result<(), Difference> {
        let Ok(given) = plan.told else {
            return agree_on_plans(Repeat::NoList, &self.plan_in(0), plan);
        };
        let states = given.states;
        // each row has a state at least, and there are no more than beginnings
        let most = self.list.len();
        if !(expected.rows.len()..=most).contains(&states) {
            return agree(Figure::States, states as u64, most as u64);
        }
        if states == 0 {
            return Ok(());
        }
        agree_on_plans(Repeat::ExactList, &self.plan_in(states), plan)?;
        self.compare_short(states - 1, expected.last_port())?;
        if let Some(places) = &expected.places {
            let half = states / 2;
            self.compare_short(half, first_without_room(places, half))?;
        }
        Ok(())
    }

    // A trial answers as the plan at that capacity does, and the book's own plan is as before.
    fn compare_trial(&mut self, thousandths: u64, plan: &Written) -> Result<(), Difference> {
        let mut levels = [MARK; BUFFER_BYTES];
        let Some(answer) = self.book.tried(thousandths, &mut self.list, &mut levels) else {
            return Ok(());
        };
        let told = plain(answer);
        self.totals.note_plan(&told);
        agree_on_plans(Repeat::AfterTrial, &self.plan_in_all(), plan)?;
        let step = Step::Set(thousandths);
        let counted = self.ledger.answer_to(self.board, &step);
        let set = self.book.change(&step).map_err(Refusal::from);
        agree_on_answer(set, counted)?;
        if let Err(refusal) = counted {
            return compare_refusal(&told, refusal, &levels);
        }
        self.ledger.enter(self.board, &step)?;
        let tried = Written { told, levels };
        agree_on_plans(Repeat::Trial, &tried, &self.plan_in_all())?;
        let expected = count_board(self.heap, self.board, &self.ledger)?;
        self.totals.note_count(&expected);
        expected.compare(&told, &levels)
    }

    // A levels buffer of 47 bytes is too short for any plan.
    fn compare_buffer(&mut self) -> Result<(), Difference> {
        let mut levels = [MARK; 47];
        let told = plain(self.book.planned(&mut self.list, &mut levels));
        self.totals.note_plan(&told);
        let short = Refusal {
            number: 31,
            port: 0,
        };
        compare_refusal(&told, short, &levels)
    }
}

// Fills a book, plans it in a list that is long enough, and compares; then asks what else is asked.
pub fn compare_board<K: Kind, B: Book>(
    heap: Global,
    board: &Board,
    extras: &Extras,
    totals: &mut Totals,
) -> Result<(), Difference> {
    let Filled { book, ledger } = fill::<B>(heap, board, totals)?;
    let expected = count_board(heap, board, &ledger)?;
    totals.note_board(board.rule, board.aim, expected.rows.len());
    totals.note_count(&expected);
    let blank = State {
        load: BLANK_LOAD,
        ..State::<K>::blank()
    };
    let list = vec![in heap; blank; all_beginnings(&expected.rows)?]?;
    let mut case = Case {
        heap,
        board,
        book,
        ledger,
        list,
        totals,
    };
    let plan = case.plan_in_all();
    expected.compare(&plan.told, &plan.levels)?;
    compare_list(&expected, &plan.told, &case.list)?;
    if extras.lists {
        case.compare_lists(&expected, &plan)?;
    }
    if extras.buffer {
        case.compare_buffer()?;
    }
    match extras.trial {
        Some(thousandths) => case.compare_trial(thousandths, &plan),
        None => Ok(()),
    }
}
