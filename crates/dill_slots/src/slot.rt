/// A value under the number of its slot, which names it while it is live, and under its id, which is never given again.
#[derive(Debug, Drop)]
pub struct Slot<T> {
    pub slot: u32,
    pub id: u64,
    pub value: T,
}

/// When the slot of this number and id is due, in milliseconds since the start.
#[derive(Clone, Copy, Debug, PartialEq, Eq)]
pub struct Timer {
    pub deadline: u64,
    pub id: u64,
    pub slot: u32,
}

/// A clause of the slot of this number, which waits on a queue.
#[derive(Clone, Copy, Debug, PartialEq, Eq)]
pub struct Waiting {
    pub slot: u32,
    pub clause: u8,
    pub queue: u64,
}

/// Why a value was not put into a slot. It comes back.
#[derive(Debug, Drop)]
pub enum SlotFault<T> {
    /// There are 65,536 live slots.
    Full(T),
    NoMemory(T),
}
