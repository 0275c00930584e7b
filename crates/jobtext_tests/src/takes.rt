// Taking the calls of a text, whatever its kind.
use cost::energies::Energy;
use cost::kinds::Kind;
use cost::pairs::Pair;
use cost::peaks::Peak;
use jobtext::jobs::{Job, Opened, open};
use plans::states::State;
use plantext::kinds::JobKind;
use std::alloc::{AllocError, Global};

// What a call came to: none was left, it was accepted, or number, line and port of its refusal.
pub(crate) type Came = Option<Result<(), (u8, u64, u64)>>;

fn take_next<K: JobKind>(
    job: &mut Job<K>,
    text: &[u8],
    list: &mut [State<K>],
    answer: &mut [u8],
) -> Came {
    let outcome = job.next(text, list, answer)?.outcome;
    Some(
        outcome
            .map(|_| ())
            .map_err(|fault| (fault.number(), fault.line(), fault.port())),
    )
}

fn take_each<K: JobKind>(
    mut job: Job<K>,
    text: &[u8],
    list: &mut [State<K>],
    rooms: [usize; 3],
    buffer: &mut [u8],
) -> [Came; 3] {
    rooms.map(|room| {
        let room = room.min(buffer.len());
        take_next(&mut job, text, list, &mut buffer[..room])
    })
}

// What three calls come to, each in so many bytes of the buffer.
pub(crate) fn three_came(text: &[u8], rooms: [usize; 3], buffer: &mut [u8]) -> [Came; 3] {
    match open(text) {
        Opened::Energy(job) => {
            take_each(
                job,
                text,
                &mut [State::<Energy>::blank(); 12],
                rooms,
                buffer,
            )
        },
        Opened::Peak(job) => {
            take_each(job, text, &mut [State::<Peak>::blank(); 12], rooms, buffer)
        },
        Opened::Both(job) => {
            take_each(
                job,
                text,
                &mut [State::<Pair<Energy, Peak>>::blank(); 12],
                rooms,
                buffer,
            )
        },
    }
}

// What the first call of a text comes to.
pub(crate) fn first_came(text: &[u8]) -> Came {
    let mut buffer = [0; 256];
    three_came(text, [256; 3], &mut buffer)[0]
}

// Writes the next answer behind the others; false if no call is left.
fn append_next<K: JobKind>(
    job: &mut Job<K>,
    text: &[u8],
    list: &mut [State<K>],
    all: &mut Vec<u8>,
) -> Result<bool, AllocError> {
    let mut answer = [0; 256];
    match job.next(text, list, &mut answer) {
        Some(answered) => {
            all.extend_from_slice(&answer[0..answered.length])?;
            Ok(true)
        }
        None => Ok(false),
    }
}

fn answers_of<K: JobKind>(
    heap: Global,
    mut job: Job<K>,
    text: &[u8],
    list: &mut [State<K>],
) -> Result<Vec<u8>, AllocError> {
    let mut all = Vec::new(heap);
    // no text has more calls than bytes: the count is what lets the loop end
    for _ in 0..=text.len() {
        if !append_next(&mut job, text, list, &mut all)? {
            break;
        }
    }
    Ok(all)
}

// All answers of a text, one behind the other.
pub(crate) fn all_answers(heap: Global, text: &[u8]) -> Result<Vec<u8>, AllocError> {
    match open(text) {
        Opened::Energy(job) => answers_of(heap, job, text, &mut [State::<Energy>::blank(); 12]),
        Opened::Peak(job) => answers_of(heap, job, text, &mut [State::<Peak>::blank(); 12]),
        Opened::Both(job) => answers_of(
            heap,
            job,
            text,
            &mut [State::<Pair<Energy, Peak>>::blank(); 12],
        ),
    }
}
