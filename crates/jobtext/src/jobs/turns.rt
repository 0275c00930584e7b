// Taking one call of a job.
ghost use Rattle.std.specs.Prelude.{◌≡◌, ◌<◌, ◌≤◌, true, length, is_some, IfSome, Err};
ghost use Rattle.jobtext.specs.Books.{book_view};
ghost use Rattle.jobtext.specs.Made.{no_levels};
ghost use Rattle.jobtext.specs.Jobs.{over, unless_short, call_at, judged_call, turn, most_left, stage_after, list_left, text_left, answered};
ghost use Rattle.jobtext.specs.Views.{stage_view, Takes, Turns};

use super::opens::too_long;
use super::{Going, Job, Stage};
use crate::answers::Answered;
use crate::readers::Reader;
use cost::kinds::Kind;
use plans::states::State;
use plantext::answers::{Outcome, ROOM_NEEDED, write_answer};
use plantext::faults::JobFault;
use plantext::kinds::JobKind;

// What comes of a job call: its outcome, and how far the job has come then.
#[derive(Clone, Copy)]
pub(crate) struct CallTurn<K> {
    outcome: Outcome<K>,
    stage: Stage,
}

// Nothing is read after this fault.
fn ended<K: Kind>(fault: JobFault) -> CallTurn<K>
    ensures outcome { result.outcome ≡ Err fault }
    ensures stage { stage_view result.stage ≡ over }
{
    CallTurn {
        outcome: Err(fault),
        stage: Stage::Over,
    }
}

// The fault that is answered in a buffer of so many bytes: a short one is looked for behind 11.
fn unless_short(room: usize, fault: JobFault) -> JobFault
    ensures { result ≡ unless_short room fault }
{
    match fault {
        JobFault::LongText => fault,
        _ if room < ROOM_NEEDED => JobFault::ShortAnswer,
        _ => fault,
    }
}

// Reads the next call and makes it. What is lent for a call stays in parameters of its own: the contract
// says of each what it holds before and after.
fn take_call<K: Kind>(
    going: &Going,
    text: &[u8],
    list: &mut [State<K>],
    levels: &mut [u8],
) -> CallTurn<K>
    requires short { length text.now ≤ 16384 }
    requires inside { going.now.at < length text.now }
    requires blank { levels.old ≡ no_levels }
    ensures { Takes (call_at K.Kind.meaning text.now (length list.old) going.now.at going.now.line (book_view going.now.book)) result.outcome (stage_view result.stage) levels.new list.old list.new }
{
    let mut book = going.book;
    let mut reader = Reader::behind(text, going.at, going.line);
    match reader.call(book.rule(), going.devices) {
        Ok(call) => {
            let answer = book.make(call, list, levels);
            let stage = Stage::Going(Going {
                at: text.len() - reader.bytes_left(),
                line: reader.line_number(),
                devices: going.devices,
                book,
            });
            let line = going.line;
            CallTurn {
                outcome: answer.map_err(|fault| JobFault::Refused { fault, line }),
                stage,
            }
        }
        Err(fault) => ended(fault),
    }
}

// Takes the next call, in a text and an answer buffer of any length.
fn go_on<K: Kind>(
    going: &Going,
    text: &[u8],
    room: usize,
    list: &mut [State<K>],
    levels: &mut [u8],
) -> CallTurn<K>
    requires inside { going.now.at < length text.now }
    requires blank { levels.old ≡ no_levels }
    ensures { Takes (judged_call K.Kind.meaning text.now (length list.old) room going.now.at going.now.line (book_view going.now.book)) result.outcome (stage_view result.stage) levels.new list.old list.new }
{
    if too_long(text) {
        return ended(JobFault::LongText);
    }
    if room < ROOM_NEEDED {
        return ended(JobFault::ShortAnswer);
    }
    take_call(going, text, list, levels)
}

impl<K: JobKind> Job<K> {
    // The outcome of the next call; none if no call is left.
    fn turn(
        &mut self,
        text: &[u8],
        room: usize,
        list: &mut [State<K>],
        levels: &mut [u8],
    ) -> Option<Outcome<K>>
        requires { levels.old ≡ no_levels }
        ensures { Turns (turn K.Kind.meaning text.now (length list.old) room (stage_view self.old.stage)) (stage_view self.old.stage) result (stage_view self.new.stage) levels.new list.old list.new }
    {
        match self.stage {
            Stage::Over => None,
            Stage::Faulty(fault) => {
                self.stage = Stage::Over;
                Some(Err(unless_short(room, fault)))
            }
            Stage::Going(going) => {
                if text.len() <= going.at {
                    return None;
                }
                let turn = go_on(&going, text, room, list, levels);
                self.stage = turn.stage;
                Some(turn.outcome)
            }
        }
    }

    // Takes the next call of the text, and writes its answer at the start of the answer buffer. None if no
    // call is left, and then nothing is written. The text is the one that the job was opened with.
    pub fn next(
        &mut self,
        text: &[u8],
        list: &mut [State<K>],
        answer: &mut [u8],
    ) -> Option<Answered<K>>
        ensures answer { result ≡ answered K.Kind.numbers (turn K.Kind.meaning text.now (length list.old) (length answer.old) (stage_view self.old.stage)) answer.old }
        ensures job { stage_view self.new.stage ≡ stage_after (stage_view self.old.stage) (turn K.Kind.meaning text.now (length list.old) (length answer.old) (stage_view self.old.stage)) }
        ensures list { list.new ≡ list_left (turn K.Kind.meaning text.now (length list.old) (length answer.old) (stage_view self.old.stage)) list.old list.new }
        ensures text { answer.new ≡ text_left K.Kind.numbers (turn K.Kind.meaning text.now (length list.old) (length answer.old) (stage_view self.old.stage)) answer.old }
        ensures within { IfSome result (λ a. a.length ≤ length answer.old) }
        ensures fewer { is_some result ≡ true → most_left text.now (stage_view self.new.stage) < most_left text.now (stage_view self.old.stage) }
    {
        let mut levels = [0; 48];
        let outcome = self.turn(text, answer.len(), list, &mut levels)?;
        let length = write_answer(&outcome, &levels, answer);
        Some(Answered { outcome, length })
    }
}
