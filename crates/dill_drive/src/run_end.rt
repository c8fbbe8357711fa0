use dill_base::Errno;

/// How a run ended: `main` ended well or with an errno, nobody could go on, turns and rounds reached the budget,
/// a wait or a write failed, or memory was refused before the first wait.
#[derive(Clone, Copy, Debug, PartialEq, Eq)]
pub enum RunEnd {
    Ended,
    Faulted(Errno),
    Stuck,
    Spent,
    WaitFault,
    WriteFault,
    NoMemory,
}
