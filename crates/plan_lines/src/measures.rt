// The lines of a board's measures.
use crate::costs::CostText;
use board::measures::Measure;
use board::periods::Hyperperiod;
use board::processors::Processor;
use board::tasks::Task;
use cost::energies::Energy;
use cost::kinds::Kind;
use cost::pairs::Pair;
use cost::peaks::Peak;
use std::fmt;

// The price of a measure, or a hyphen if the kind declines it.
#[derive(Clone, Copy)]
struct PriceText<K> {
    price: Option<K>,
}

impl<K: Kind> fmt::Display for PriceText<K> {
    fn fmt<W: fmt::Write>(&self, f: &mut fmt::Formatter<W>) -> fmt::Result {
        match &self.price {
            Some(cost) => {
                let text = CostText { cost };
                write!(f, "{text}")
            }
            None => write!(f, "-"),
        }
    }
}

// The price of the measure under the kind.
fn price<K: Kind>(measure: &Measure) -> PriceText<K> {
    PriceText {
        price: K::price(measure),
    }
}

// What a level offers: the figures of the measure, and its price under each kind.
#[derive(Clone, Copy)]
struct OfferText {
    measure: Option<Measure>,
}

impl fmt::Display for OfferText {
    fn fmt<W: fmt::Write>(&self, f: &mut fmt::Formatter<W>) -> fmt::Result {
        let Some(m) = &self.measure else {
            return write!(f, "- - - - - no - - -");
        };
        write!(
            f,
            "{} {} {} {} {} yes",
            m.busy, m.draw, m.jobs, m.load, m.energy
        )?;
        write!(f, " {}", price::<Energy>(m))?;
        write!(f, " {}", price::<Peak>(m))?;
        write!(f, " {}", price::<Pair<Energy, Peak>>(m))
    }
}

// The hyperperiod of a board whose tasks are on the ports from 1 on, and a line for each task and level.
#[derive(Clone, Copy)]
pub struct MeasureTable<'a> {
    pub processor: &'a Processor,
    pub hyperperiod: &'a Hyperperiod,
    pub tasks: &'a [Task],
}

impl fmt::Display for MeasureTable<'_> {
    fn fmt<W: fmt::Write>(&self, f: &mut fmt::Formatter<W>) -> fmt::Result {
        writeln!(f, "hyperperiod {} us", self.hyperperiod.micros())?;
        writeln!(
            f,
            "port level busy_us draw_uw jobs load_us energy_pj offered e p b"
        )?;
        for (port, task) in (1u64..).zip(self.tasks.iter()) {
            for level in 0..self.processor.levels().len() {
                let offer = self.processor.offer(task, self.hyperperiod, level);
                let text = OfferText {
                    measure: offer.map(|offer| offer.measure),
                };
                writeln!(f, "{port} {level} {text}")?;
            }
        }
        Ok(())
    }
}
