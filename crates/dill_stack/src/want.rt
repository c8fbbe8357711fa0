use dill_base::Errno;
use dill_calls::Answer;

/// What a receive asks of a stack: exactly so many bytes, a message of at most so many, or a line of an HTTP head.
#[derive(Clone, Copy, Debug, PartialEq, Eq)]
pub enum Want {
    Exact(usize),
    Message(usize),
    Request,
    Status,
    Field,
}

/// What a look at the bytes that came gives: an answer, nothing whole yet, or the errno of the receive.
#[derive(Debug, Drop)]
pub enum ReadOut {
    Given(Answer),
    Need,
    Fault(Errno),
}
