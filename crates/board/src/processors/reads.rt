// Reading a processor.
ghost use Rattle.std.specs.Prelude.{◌≡◌};
ghost use Rattle.board.specs.Views.{processor_figures};

use super::Processor;
use crate::levels::Level;

impl Processor {
    // The levels, from level 0 on.
    pub fn levels(&self) -> &[Level]
        ensures { result.now ≡ (processor_figures self.now).levels }
    {
        self.levels.items()
    }

    // The standby power of each device, in mW.
    pub fn standby(&self) -> &[u64]
        ensures { result.now ≡ (processor_figures self.now).standby }
    {
        self.standby.items()
    }
}
