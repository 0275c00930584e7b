// The text of an answer.
ghost use Rattle.std.specs.Prelude.{◌≡◌, ◌+◌, ◌≤◌, [], ◌++◌, ◌∷◌, length, codes, decimal};
ghost use Rattle.shortlist.specs.Lists.{listed};
ghost use Rattle.plantext.specs.Answers.{line_of, level_of, level_sign, level_signs, numbers_text, plan_text, fault_text, answer_text, room_needed, written, written_length};

use crate::faults::JobFault;
use crate::kinds::JobKind;
use itoa::Buffer;
use plans::figures::Figures;
use shortlist::lists::ShortList;

// What a job call answers: the figures of a plan, none where the call was no plan, or why it is refused.
pub type Outcome<K> = Result<Option<Figures<K>>, JobFault>;

// the bytes that the buffer of an answer has at least
pub const ROOM_NEEDED: usize = 256;

// Writes the text of the answer at the start of the buffer, and says how many bytes it has.
// A buffer under 256 bytes stays as found, and no byte is written.
pub fn write_answer<K: JobKind>(outcome: &Outcome<K>, levels: &[u8; 48], answer: &mut [u8]) -> usize
    ensures answer { result ≡ written_length (answer_text K.Kind.numbers levels.now outcome.now) answer.old }
    ensures text { answer.new ≡ written (answer_text K.Kind.numbers levels.now outcome.now) answer.old }
    ensures fits { room_needed ≤ length answer.old → length (answer_text K.Kind.numbers levels.now outcome.now) ≤ room_needed }
{
    if answer.len() < ROOM_NEEDED {
        return 0;
    }
    let mut text = AnswerText {
        bytes: ShortList::none(0),
    };
    text.answer(outcome, levels);
    let bytes = text.bytes.items();
    answer[..bytes.len()].copy_from_slice(bytes);
    bytes.len()
}

// The text of an answer, as far as it is written.
#[derive(Drop)]
struct AnswerText {
    bytes: ShortList<u8, 256>,
}

impl AnswerText {
    // Writes the whole text of an answer.
    fn answer<K: JobKind>(&mut self, outcome: &Outcome<K>, levels: &[u8; 48])
        requires { listed self.old.bytes ≡ [] }
        ensures { listed self.new.bytes ≡ answer_text K.Kind.numbers levels.now outcome.now }
    {
        match outcome {
            Ok(None) => self.line(b"answer=", 0),
            Ok(Some(figures)) => self.plan(figures, levels),
            Err(fault) => self.fault(fault),
        }
    }

    // Writes the lines of a plan.
    fn plan<K: JobKind>(&mut self, figures: &Figures<K>, levels: &[u8; 48])
        requires { listed self.old.bytes ≡ [] }
        ensures { listed self.new.bytes ≡ plan_text K.Kind.numbers levels.now figures.now }
    {
        self.line(b"answer=", 0);
        self.cost(&figures.cost);
        self.line(b"load=", figures.load);
        self.line(b"limit=", figures.limit);
        self.line(b"states=", figures.states as u64);
        self.levels(levels);
    }

    // Writes the lines of a refusal.
    fn fault(&mut self, fault: &JobFault)
        requires { listed self.old.bytes ≡ [] }
        ensures { listed self.new.bytes ≡ fault_text fault.now }
    {
        self.line(b"answer=", u64::from(fault.number()));
        self.line(b"line=", fault.line());
        self.line(b"port=", fault.port());
    }

    // Writes the line of a number, which has 20 digits at most.
    fn line(&mut self, key: &[u8], n: u64)
        requires { length (listed self.old.bytes) + length key.now + 21 ≤ 256 }
        ensures text { listed self.new.bytes ≡ listed self.old.bytes ++ line_of key.now (decimal n) }
        ensures short { length (listed self.new.bytes) ≤ length (listed self.old.bytes) + length key.now + 21 }
    {
        self.add(key);
        self.number(n);
        self.add(b"\n");
    }

    // Writes the line of a cost.
    fn cost<K: JobKind>(&mut self, cost: &K)
        requires { length (listed self.old.bytes) + 47 ≤ 256 }
        ensures text { listed self.new.bytes ≡ listed self.old.bytes ++ line_of (codes "cost=") (numbers_text (K.Kind.numbers cost.now)) }
        ensures short { length (listed self.new.bytes) ≤ length (listed self.old.bytes) + 47 }
    {
        self.add(b"cost=");
        self.numbers(cost);
        self.add(b"\n");
    }

    // Writes the numbers of a cost, two at most, with a comma between them.
    fn numbers<K: JobKind>(&mut self, cost: &K)
        requires { length (listed self.old.bytes) + 41 ≤ 256 }
        ensures text { listed self.new.bytes ≡ listed self.old.bytes ++ numbers_text (K.Kind.numbers cost.now) }
        ensures short { length (listed self.new.bytes) ≤ length (listed self.old.bytes) + 41 }
    {
        let Some(first) = cost.number(0) else {
            return;
        };
        self.number(first);
        let Some(second) = cost.number(1) else {
            return;
        };
        self.comma();
        self.number(second);
    }

    // Writes the comma between two numbers.
    fn comma(&mut self)
        requires { length (listed self.old.bytes) + 1 ≤ 256 }
        ensures { listed self.new.bytes ≡ listed self.old.bytes ++ 44 ∷ [] }
    {
        self.add(b",");
    }

    // Writes the line of the levels.
    fn levels(&mut self, levels: &[u8; 48])
        requires { length (listed self.old.bytes) + 56 ≤ 256 }
        ensures { listed self.new.bytes ≡ listed self.old.bytes ++ line_of (codes "levels=") (level_signs levels.now) }
    {
        self.add(b"levels=");
        self.add(&port_signs(levels));
        self.add(b"\n");
    }

    // Writes the number in decimal.
    fn number(&mut self, n: u64)
        requires { length (listed self.old.bytes) + 20 ≤ 256 }
        ensures text { listed self.new.bytes ≡ listed self.old.bytes ++ decimal n }
        ensures short { length (listed self.new.bytes) ≤ length (listed self.old.bytes) + 20 }
    {
        self.add(Buffer::new().format(n).as_bytes());
    }

    // Writes the bytes.
    fn add(&mut self, bytes: &[u8])
        requires { length (listed self.old.bytes) + length bytes.now ≤ 256 }
        ensures { listed self.new.bytes ≡ listed self.old.bytes ++ bytes.now }
    {
        let _ = self.bytes.extend(bytes);
    }
}

// The sign of each port, from port 1 on. A loop in place: `map` of an array goes through an iterator, item
// by item, and takes twice the time.
fn port_signs(levels: &[u8; 48]) -> [u8; 48]
    ensures { result ≡ level_signs levels.now }
{
    let mut signs = *levels;
    for sign in &mut signs {
        *sign = port_sign(*sign);
    }
    signs
}

// The sign of a port: the digit of its level from 0 to 7, `-` for any other byte, as 255, which is a port
// without a task.
fn port_sign(byte: u8) -> u8
    ensures { result ≡ level_sign (level_of byte) }
{
    if byte <= 7 { b'0' + byte } else { b'-' }
}
