use dill_base::Errno;

/// The head of a frame (RFC 6455, section 5.2): its payload has `length` bytes and begins at the place `start`.
#[derive(Clone, Copy, Debug, PartialEq, Eq)]
pub struct Head {
    pub fin: bool,
    pub opcode: u8,
    pub key: Option<[u8; 4]>,
    pub start: usize,
    pub length: u64,
}

/// What stands at the front of some bytes: a whole head, too little to judge yet, or a refusal.
#[derive(Clone, Copy, Debug, PartialEq, Eq)]
pub enum HeadFront {
    Whole(Head),
    Need,
    Fault(Errno),
}
