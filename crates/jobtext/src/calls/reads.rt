// Reading a call.
ghost use Rattle.std.specs.Prelude.{◌≡◌, ◌≤◌, true, IfSome, IfOk, codes};
ghost use Rattle.jobtext.specs.declared.calls.Word.TheVariants as words;
ghost use Rattle.jobtext.specs.Lines.{due};
ghost use Rattle.jobtext.specs.Calls.{takes, word_named, word_of, due_key, call_lines, job_call};
ghost use Rattle.jobtext.specs.Headers.{number_line};
ghost use Rattle.jobtext.specs.Places.{place, read_view, call_view, word_in};

use super::{JobCall, Word};
use crate::headers::Rule;
use crate::readers::Reader;
use plantext::faults::JobFault;

// The word with this name.
fn word_named(name: &[u8]) -> Option<Word>
    ensures { result ≡ word_named name.now }
{
    match name {
        b"admit" => Some(Word::Admit),
        b"retire" => Some(Word::Retire),
        b"capacity" => Some(Word::Capacity),
        b"trial" => Some(Word::Trial),
        b"serve" => Some(Word::Serve),
        b"clock" => Some(Word::Clock),
        b"plan" => Some(Word::Plan),
        _ => None,
    }
}

// Books of this rule take calls of this word.
fn takes_word(rule: Rule, word: Word) -> bool
    ensures { result ≡ takes rule word }
{
    match (rule, word) {
        (_, Word::Admit | Word::Retire | Word::Plan) => true,
        (Rule::Periodic, Word::Capacity | Word::Trial) => true,
        (Rule::Sporadic, Word::Serve | Word::Clock) => true,
        (_, _) => false,
    }
}

// The word with this name, if books of this rule take it.
fn word_for(rule: Rule, name: &[u8]) -> Option<Word>
    ensures word { result ≡ word_of rule name.now }
    ensures taken { IfSome result (λ w. takes rule w ≡ true) }
{
    word_named(name).filter(|word| takes_word(rule, *word))
}

impl<'a> Reader<'a> {
    // The first line of a call.
    fn word(&mut self, rule: Rule) -> Result<Word, JobFault>
        ensures word { read_view result (place self.new) ≡ due (codes "call=") (word_of rule) (place self.old) }
        ensures taken { IfOk result (λ w. takes rule w ≡ true) }
    {
        self.due(b"call=", |name| word_for(rule, name))
    }

    // The period or the deadline of a task.
    fn time(&mut self, rule: Rule) -> Result<u64, JobFault>
        ensures { read_view result (place self.new) ≡ number_line (due_key rule) (place self.old) }
    {
        match rule {
            Rule::Periodic => self.number(b"period="),
            Rule::Sporadic => self.number(b"deadline="),
        }
    }

    // The lines of an admission.
    fn admission(&mut self, rule: Rule, devices: usize) -> Result<JobCall, JobFault>
        requires { devices ≤ 8 }
        ensures lines { call_view rule result (place self.new) ≡ call_lines rule devices words.Admit (place self.old) }
        ensures word { IfOk result (λ c. word_in c ≡ words.Admit) }
    {
        let port = self.number(b"port=")?;
        let cycles = self.number(b"cycles=")?;
        let access = self.number(b"access=")?;
        let time = self.time(rule)?;
        let shares = self.numbers(b"share=", devices)?;
        Ok(JobCall::Admit {
            port,
            cycles,
            access,
            time,
            shares,
        })
    }

    // The lines of a call behind its first, which has the word.
    fn lines(&mut self, rule: Rule, devices: usize, word: Word) -> Result<JobCall, JobFault>
        requires { devices ≤ 8 }
        ensures lines { call_view rule result (place self.new) ≡ call_lines rule devices word (place self.old) }
        ensures word { IfOk result (λ c. word_in c ≡ word) }
    {
        // one arm for each word, since each has lines of its own: the grammar of calls
        match word {
            Word::Admit => self.admission(rule, devices),
            Word::Retire => {
                let port = self.number(b"port=")?;
                Ok(JobCall::Retire { port })
            }
            Word::Capacity => {
                let thousandths = self.number(b"capacity=")?;
                Ok(JobCall::Capacity { thousandths })
            }
            Word::Trial => {
                let thousandths = self.number(b"capacity=")?;
                Ok(JobCall::Trial { thousandths })
            }
            Word::Serve => {
                let port = self.number(b"port=")?;
                let cycles = self.number(b"cycles=")?;
                Ok(JobCall::Serve { port, cycles })
            }
            Word::Clock => {
                let time = self.number(b"time=")?;
                Ok(JobCall::Clock { time })
            }
            Word::Plan => Ok(JobCall::Plan),
        }
    }

    // The next call, of a book of this rule for a processor with so many devices. No form holds both
    // already: the rule is one of the type of book, and the devices are read in the header.
    pub(crate) fn call(&mut self, rule: Rule, devices: usize) -> Result<JobCall, JobFault>
        requires { devices ≤ 8 }
        ensures call { call_view rule result (place self.new) ≡ job_call rule devices (place self.old) }
        ensures taken { IfOk result (λ c. takes rule (word_in c) ≡ true) }
    {
        let word = self.word(rule)?;
        self.lines(rule, devices, word)
    }
}
