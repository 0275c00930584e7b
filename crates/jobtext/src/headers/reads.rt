// Reading a header.
ghost use Rattle.std.specs.Prelude.{◌≡◌, ◌≤◌, IfOk, codes};
ghost use Rattle.jobtext.specs.Lines.{due, repeated};
ghost use Rattle.jobtext.specs.Headers.{kind_of, rule_of, count_of, number_line, level as level_at, header as header_at};
ghost use Rattle.jobtext.specs.Places.{place, read_view, list_view, header_view};

use super::{Header, KindName, Rule};
use crate::readers::Reader;
use board::levels::Level;
use cost::energies::Energy;
use cost::kinds::Kind;
use cost::pairs::Pair;
use cost::peaks::Peak;
use plantext::faults::JobFault;
use plantext::numbers::read_number;
use shortlist::lists::ShortList;

// The kind with this letter.
fn kind_named(value: &[u8]) -> Option<KindName>
    ensures { result ≡ kind_of value.now }
{
    match value {
        [letter] if *letter == <Energy as Kind>::LETTER => Some(KindName::Energy),
        [letter] if *letter == <Peak as Kind>::LETTER => Some(KindName::Peak),
        [letter] if *letter == <Pair<Energy, Peak> as Kind>::LETTER => Some(KindName::Both),
        _ => None,
    }
}

// The rule with this letter.
fn rule_named(value: &[u8]) -> Option<Rule>
    ensures { result ≡ rule_of value.now }
{
    match value {
        b"p" => Some(Rule::Periodic),
        b"s" => Some(Rule::Sporadic),
        _ => None,
    }
}

// A number from `low` to `high`.
fn count_within(value: &[u8], low: u64, high: u64) -> Option<u64>
    ensures { result ≡ count_of low high value.now }
{
    read_number(value).filter(|number| (low..=high).contains(number))
}

impl<'a> Reader<'a> {
    // The number of the next line, which is due to have this key.
    pub(crate) fn number(&mut self, key: &[u8]) -> Result<u64, JobFault>
        ensures { read_view result (place self.new) ≡ number_line key.now (place self.old) }
    {
        self.due(key, read_number)
    }

    // So many numbers, up to eight, each on a line with this key.
    pub(crate) fn numbers(
        &mut self,
        key: &[u8],
        count: usize,
    ) -> Result<ShortList<u64, 8>, JobFault>
        requires { count ≤ 8 }
        ensures { list_view result (place self.new) ≡ repeated (number_line key.now) count (place self.old) }
    {
        self.repeated(count, 0, |reader| reader.number(key))
    }

    // The next line is the count of levels or devices.
    fn count(&mut self, key: &[u8], low: u64, high: u64) -> Result<usize, JobFault>
        requires { high ≤ 8 }
        ensures count { read_view result (place self.new) ≡ due key.now (count_of low high) (place self.old) }
        ensures few { IfOk result (λ n. n ≤ 8) }
    {
        let count = self.due(key, |value| count_within(value, low, high))?;
        Ok(count as usize)
    }

    // Speed and power of a level.
    fn level(&mut self) -> Result<Level, JobFault>
        ensures { read_view result (place self.new) ≡ level_at (place self.old) }
    {
        let mhz = self.number(b"mhz=")?;
        let mw = self.number(b"mw=")?;
        Ok(Level { mhz, mw })
    }

    // The header, from the first line of a text on.
    pub(crate) fn header(&mut self) -> Result<Header, JobFault>
        ensures { header_view result (place self.new) ≡ header_at (place self.old) }
    {
        let kind = self.due(b"kind=", kind_named)?;
        let rule = self.due(b"rule=", rule_named)?;
        let level_count = self.count(b"levels=", 1, 8)?;
        let levels = self.repeated(
            level_count,
            Level { mhz: 0, mw: 0 },
            |reader| reader.level(),
        )?;
        let device_count = self.count(b"devices=", 0, 8)?;
        let standby = self.numbers(b"standby=", device_count)?;
        Ok(Header {
            kind,
            rule,
            levels,
            standby,
        })
    }
}
