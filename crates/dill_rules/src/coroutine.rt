use dill_base::Errno;
use dill_calls::{Answer, Call, Word};

/// Where a coroutine stands. `Running` and `Fresh` come only inside a step: it has been given its answer and makes its
/// call, or it was answered in this step and has no place among the answered yet.
#[derive(Drop)]
pub enum Mode {
    Pending(Call),
    Running,
    Fresh(Word, Answer),
    Answered(Word, Answer),
    Ending(Option<Errno>),
}

/// A coroutine. Which bundle it lives in is the forest's to say.
#[derive(Drop)]
pub struct Coroutine<B> {
    pub number: u64,
    pub body: B,
    pub mode: Mode,
}

/// A bundle that is closing, and the handle number that died with its closing.
#[derive(Clone, Copy, Debug, PartialEq, Eq)]
pub struct Closing {
    pub bundle: u64,
    pub number: u64,
}
