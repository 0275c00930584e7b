// Lines, keys and values: all are parts of the text.
ghost use Rattle.std.specs.Prelude.{◌≡◌, ℕ, List, Option, IfOk, ◌+◌, ◌<◌, ◌≤◌, length, drop, is_some, IfSome, if◌then◌else◌, Some, ◌==◌, position};
ghost use Rattle.std.specs.Option.{option_map};
ghost use Rattle.jobtext.specs.Lines.{cut, behind, Place, Reading, due, repeated};
ghost use Rattle.jobtext.specs.Places.{alike, place, cut_view, read_view, list_view, FormsAs, ReadsAs};

use super::Reader;
use plantext::faults::JobFault;
use shortlist::lists::ShortList;

// How many bytes stand before the first end of a line; none if no line is ended.
fn line_length(bytes: &[u8]) -> Option<usize>
    ensures first { result ≡ position (λ b. b == 10) bytes.now }
    ensures inside { IfSome result (λ n. n < length bytes.now) }
{
    bytes.iter().position(|byte| *byte == b'\n')
}

// Both begin with the same byte.
fn begin_alike(line: &[u8], key: &[u8]) -> bool
    ensures { result ≡ alike line.now key.now }
{
    match (line, key) {
        ([byte, ..], [due, ..]) => *byte == *due,
        _ => false,
    }
}

// What stands behind the key, if the line begins with it. Byte by byte, and not by `strip_prefix`, so that
// a byte that is not compared is refused for the clause above.
fn value_behind<'a>(line: &'a [u8], key: &[u8]) -> Option<&'a [u8]>
    ensures { option_map (λ v. v.now) result ≡ behind key.now line.now }
{
    match key {
        [] => Some(line),
        [_, keys @ ..] => match line {
            [_, rest @ ..] if begin_alike(line, key) => value_behind(rest, keys),
            _ => None,
        },
    }
}

impl<'a> Reader<'a> {
    // A reader behind so many bytes of a text, before the line with this number.
    pub(crate) fn behind(text: &'a [u8], at: usize, line: u64) -> Reader<'a>
        requires { (length text.now ≤ 16384) × ((at ≤ length text.now) × ((1 ≤ line) × (line ≤ at + 1))) }
        ensures { place result ≡ record { rest = drop at text.now; line = line } }
    {
        Reader {
            rest: &text[at..],
            line,
        }
    }

    // How many bytes are not read yet.
    pub(crate) fn bytes_left(&self) -> usize
        ensures { result ≡ length self.now.rest.now }
    {
        self.rest.len()
    }

    // The number of the line that is read next, from 1 on.
    pub(crate) fn line_number(&self) -> u64
        ensures { result ≡ self.now.line }
    {
        self.line
    }

    // The next line without its end; none if the text ends inside it.
    fn line(&mut self) -> Option<&'a [u8]>
        ensures cut { cut_view result self.new ≡ cut self.old.rest.now }
        ensures number { self.new.line ≡ (if is_some result then self.old.line + 1 else self.old.line) }
    {
        let rest = self.rest;
        let length = line_length(rest)?;
        let line = &rest[..length];
        *self = Reader {
            rest: &rest[length + 1..],
            line: self.line + 1,
        };
        Some(line)
    }

    // What the next line holds, which is due to have this key and a value of this form.
    pub(crate) fn due<T, F: FnOnce(&'a [u8]) -> Option<T>>(
        &mut self,
        key: &[u8],
        form: F,
    ) -> Result<T, JobFault>
        requires { F.IsAlwaysCallable form }
        ensures read { (means : List ℕ → Option T) → FormsAs (F.post form) means → read_view result (place self.new) ≡ due key.now means (place self.old) }
        ensures formed { IfOk result (λ x. (v : _) × F.post form v (Some x)) }
    {
        let line = self.line;
        let bytes = self.line().ok_or(JobFault::TextEnds { line })?;
        let value = value_behind(bytes, key).ok_or(JobFault::WrongKey { line })?;
        form(value).ok_or(JobFault::BadValue { line })
    }

    // What is read so many times, up to eight, one behind the other. `fill` stands in the list's places
    // until then.
    pub(crate) fn repeated<T: Copy, F: Fn(&mut Reader<'a>) -> Result<T, JobFault>>(
        &mut self,
        count: usize,
        fill: T,
        read: F,
    ) -> Result<ShortList<T, 8>, JobFault>
        requires few { count ≤ 8 }
        requires callable { F.IsAlwaysCallable read }
        ensures { (means : Place → Reading T) → ReadsAs (F.post read) means → list_view result (place self.new) ≡ repeated means count (place self.old) }
    {
        let mut list = ShortList::none(fill);
        for _ in 0..count {
            let item = read(self)?;
            let _ = list.push(item);
        }
        Ok(list)
    }
}
