// What a job call answers.
use plantext::answers::Outcome;

// The outcome of a job call, and how many bytes of text were written of it: 0 if the answer buffer is too
// short, so that the first `length` bytes of the buffer are always what was written.
#[derive(Clone, Copy)]
pub struct Answered<K> {
    pub outcome: Outcome<K>,
    pub length: usize,
}
