// Opening a job: its header is read.
ghost use Rattle.std.specs.Prelude.{◌≡◌, length, nat_lt};
ghost use Rattle.board.specs.Processors.{processor_made};
ghost use Rattle.board.specs.Views.{processor_view};
ghost use Rattle.jobtext.specs.Jobs.{longest_text, opened};
ghost use Rattle.jobtext.specs.Places.{header_figures};
ghost use Rattle.jobtext.specs.Views.{started_view, opened_view};

use super::{Going, Job, Opened, Stage};
use crate::books::Book;
use crate::headers::KindName;
use crate::readers::Reader;
use board::processors::Processor;
use plantext::faults::JobFault;
use std::marker::PhantomData;

// The text has more than 16,384 bytes, which no job text has.
pub(crate) fn too_long(text: &[u8]) -> bool
    ensures { result ≡ nat_lt longest_text (length text.now) }
{
    text.len() > 16_384
}

// A job before its first call.
#[derive(Clone, Copy)]
pub(crate) struct Started {
    kind: KindName,
    going: Going,
}

// Reads the header, and makes the book that it asks for.
fn read_header(text: &[u8]) -> Result<Started, JobFault>
    ensures { started_view result ≡ opened text.now }
{
    if too_long(text) {
        return Err(JobFault::LongText);
    }
    let mut reader = Reader::behind(text, 0, 1);
    let header = reader.header()?;
    let line = reader.line_number() - 1;
    let processor = Processor::new(header.levels.items(), header.standby.items()).map_err(
        |fault| JobFault::Refused { fault, line },
    )?;
    Ok(Started {
        kind: header.kind,
        going: Going {
            at: text.len() - reader.bytes_left(),
            line: reader.line_number(),
            devices: processor.standby().len(),
            book: Book::of(header.rule, &processor),
        },
    })
}

impl<K> Job<K> {
    // A job that has come so far.
    fn at(stage: Stage) -> Job<K>
        ensures { result.stage ≡ stage }
    {
        Job {
            stage,
            kind: PhantomData,
        }
    }
}

// Opens a text: reads its header, which is at the start of the text. A text with a faulty header is opened
// as a job of kind e, whose first call answers the fault.
pub fn open(text: &[u8]) -> Opened
    ensures { opened_view result ≡ opened text.now }
{
    match read_header(text) {
        Ok(started) => {
            let stage = Stage::Going(started.going);
            match started.kind {
                KindName::Energy => Opened::Energy(Job::at(stage)),
                KindName::Peak => Opened::Peak(Job::at(stage)),
                KindName::Both => Opened::Both(Job::at(stage)),
            }
        }
        Err(fault) => Opened::Energy(Job::at(Stage::Faulty(fault))),
    }
}
