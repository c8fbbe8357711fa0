use dill_calls::Answer;

/// A meeting: whom and which of its clauses the caller met, the caller's answer, and the other's.
#[derive(Drop)]
pub struct Met {
    pub other: u64,
    pub clause: u8,
    pub answer: Answer,
    pub others: Answer,
}

/// What comes of a clause that is entered: a meeting, the end of its direction, or that it waits.
#[derive(Drop)]
pub enum Meeting {
    Met(Met),
    Ended,
    Waits,
}
