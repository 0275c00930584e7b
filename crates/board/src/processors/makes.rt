// Judging figures and making a processor of them.
ghost use Rattle.std.specs.Prelude.{◌≡◌, ◌≤◌, ◌++◌, length};
ghost use Rattle.board.specs.Processors.{level_fits, below, rising, standby_fits, processor_made};
ghost use Rattle.board.specs.Views.{processor_view};
ghost use Rattle.std.specs.List.{list_all};

use super::Processor;
use crate::faults::Fault;
use crate::levels::Level;
use crate::ranges::each_at_most;
use shortlist::lists::ShortList;

// The level's figures are in range.
fn level_fits(level: &Level) -> bool
    ensures { result ≡ level_fits level.now }
{
    (1..=4000).contains(&level.mhz) && (1..=60_000).contains(&level.mw)
}

// The figures of each level are in range.
fn each_level_fits(levels: &[Level]) -> bool
    ensures { result ≡ list_all level_fits levels.now }
{
    levels.iter().all(level_fits)
}

// The upper level has more speed and more power.
fn level_below(lower: &Level, upper: &Level) -> bool
    ensures { result ≡ below lower.now upper.now }
{
    lower.mhz < upper.mhz && lower.mw < upper.mw
}

// Speed and power both rise from each level to the next.
fn each_level_rises(levels: &[Level]) -> bool
    ensures { result ≡ rising levels.now }
{
    levels.is_sorted_by(level_below)
}

impl Processor {
    // The processor with these levels, from level 0 on, and these devices.
    pub fn new(levels: &[Level], standby: &[u64]) -> Result<Processor, Fault>
        ensures { processor_view result ≡ processor_made (record { levels = levels.now; standby = standby.now }) }
    {
        // too many are refused by their number, before any of them is looked at
        let lowest = levels.first().ok_or(Fault::BadProcessor)?;
        let few_levels = ShortList::of(levels, *lowest).ok_or(Fault::BadProcessor)?;
        let few_devices = ShortList::of(standby, 0).ok_or(Fault::BadProcessor)?;
        if !each_level_fits(levels) || !each_level_rises(levels) || !each_at_most(standby, 5000) {
            return Err(Fault::BadProcessor);
        }
        Ok(Processor {
            levels: few_levels,
            standby: few_devices,
        })
    }
}
