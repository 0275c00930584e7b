// A cost as a line has it.
use cost::kinds::Kind;
use std::fmt;

// The numbers of a cost, joined by commas.
#[derive(Clone, Copy)]
pub(crate) struct CostText<'a, K> {
    pub(crate) cost: &'a K,
}

impl<K: Kind> fmt::Display for CostText<'_, K> {
    fn fmt<W: fmt::Write>(&self, f: &mut fmt::Formatter<W>) -> fmt::Result {
        for (i, number) in (0..usize::MAX)
            .map_while(|i| self.cost.number(i))
            .enumerate()
        {
            if i > 0 {
                write!(f, ",")?;
            }
            write!(f, "{number}")?;
        }
        Ok(())
    }
}
