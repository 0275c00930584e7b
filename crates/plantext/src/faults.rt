// Why a job call is refused.
ghost use Rattle.std.specs.Prelude.{◌≡◌};
ghost use Rattle.plantext.specs.Faults.{job_numbered};

use board::faults::Fault;
use std::error::Error;
use std::fmt;

// A refusal of a job call, with the line of the job text, counted from 1, where there is one.
#[derive(Clone, Copy, PartialEq, Eq, Debug)]
pub enum JobFault {
    // 11: the text has over 16,384 bytes
    LongText,
    // 12: the answer buffer has under 256 bytes
    ShortAnswer,
    // 13: the text ends inside a group or a line
    TextEnds { line: u64 },
    // 14: the line does not begin with the key that is due
    WrongKey { line: u64 },
    // 15: the value is not of its form
    BadValue { line: u64 },
    // a fault of the book, whole, with the line of the call
    Refused { fault: Fault, line: u64 },
}

impl JobFault {
    // The number of the refusal: the book's own where the book refused.
    pub fn number(&self) -> u8
        ensures { result ≡ (job_numbered self.now).number }
    {
        match self {
            JobFault::LongText => 11,
            JobFault::ShortAnswer => 12,
            JobFault::TextEnds { .. } => 13,
            JobFault::WrongKey { .. } => 14,
            JobFault::BadValue { .. } => 15,
            JobFault::Refused { fault, .. } => fault.number(),
        }
    }

    // The line of the job text that the refusal is about, or 0.
    pub fn line(&self) -> u64
        ensures { result ≡ (job_numbered self.now).line }
    {
        match self {
            JobFault::LongText | JobFault::ShortAnswer => 0,
            JobFault::TextEnds { line }
            | JobFault::WrongKey { line }
            | JobFault::BadValue { line }
            | JobFault::Refused { line, .. } => *line,
        }
    }

    // The port that the refusal is about, or 0: only the book names one.
    pub fn port(&self) -> u64
        ensures { result ≡ (job_numbered self.now).port }
    {
        match self {
            JobFault::Refused { fault, .. } => fault.place(),
            _ => 0,
        }
    }
}

impl fmt::Display for JobFault {
    fn fmt<W: fmt::Write>(&self, f: &mut fmt::Formatter<W>) -> fmt::Result {
        let number = self.number();
        let line = self.line();
        let port = self.port();
        write!(f, "refused with {number}, line {line}, port {port}")
    }
}

impl Error for JobFault {}
