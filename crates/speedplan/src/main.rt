// Plans boards: reads a job text, from the file that is named or on standard input, and prints every answer.
#![tactic(auto)]

use anyhow::{anyhow, bail};
use jobtext::jobs::{Job, Opened, open};
use plans::states::State;
use plantext::answers::ROOM_NEEDED;
use plantext::kinds::JobKind;
use std::alloc::Global;
use std::env;
use std::fs::File;
use std::io::{Read, Write};

// one byte more than the longest job text: no more is read of any input
const MOST_BYTES: u64 = 16_385;

// the places of the list of states
const PLACES: usize = 1_500;

// The start of the input, which is the whole of it unless it is too long for a job text.
fn read_text<R: Read + Drop>(heap: Global, input: R) -> anyhow::Result<Vec<u8>> {
    let mut text = Vec::new(heap);
    input.take(MOST_BYTES).read_to_end(&mut text)?;
    Ok(text)
}

fn open_text(rt: &HostRuntime, path: &str) -> anyhow::Result<Vec<u8>> {
    let file = File::open(rt, path)?;
    read_text(rt.alloc(), file)
}

// The start of the file; an error names the file.
fn file_text(rt: &HostRuntime, path: &str) -> anyhow::Result<Vec<u8>> {
    open_text(rt, path).map_err(|error| anyhow!("cannot read {path}: {error}"))
}

// The job text: the file that the only argument names, or standard input without an argument.
fn input_text(rt: &HostRuntime) -> anyhow::Result<Vec<u8>> {
    let mut words = env::args(rt)?.skip(1);
    match (words.next(), words.next()) {
        (None, _) => read_text(rt.alloc(), rt.stdin()),
        (Some(path), None) => file_text(rt, path.as_str()),
        (Some(_), Some(_)) => {
            bail!("more than one argument: name one file, or none for standard input")
        }
    }
}

// Takes the calls of the job one by one, until none is left, and prints the answers.
fn answer_all<K: JobKind>(rt: &HostRuntime, mut job: Job<K>, text: &[u8]) -> anyhow::Result<()> {
    let mut list = vec![in rt.alloc(); State::<K>::blank(); PLACES]?;
    let mut answer = [0u8; ROOM_NEEDED];
    while let Some(answered) = job.next(text, &mut list, &mut answer) {
        rt.stdout().write_all(&answer[..answered.length])?;
    }
    Ok(())
}

fn run(rt: &HostRuntime) -> anyhow::Result<()> {
    let text = input_text(rt)?;
    match open(&text) {
        Opened::Energy(job) => answer_all(rt, job, &text),
        Opened::Peak(job) => answer_all(rt, job, &text),
        Opened::Both(job) => answer_all(rt, job, &text),
    }
}

fn main(rt: HostRuntime) -> anyhow::Result<()> {
    run(&rt)
}
