/// One direction of a link.
#[derive(Clone, Copy, Debug, PartialEq, Eq)]
pub struct Side {
    /// A call waits for it.
    pub wanted: bool,
    /// The kernel may have something to tell of it.
    pub hot: bool,
}

/// A link and its two directions.
#[derive(Clone, Copy, Debug, PartialEq, Eq)]
pub struct Interest {
    pub link: u64,
    pub reads: Side,
    pub writes: Side,
}
