/// The place in a round: the kind and the number of the last ask, both 0 before the first. Kinds count from 1 in the order in which
/// a round asks them.
#[derive(Clone, Copy, Debug, PartialEq, Eq)]
pub struct Place {
    pub kind: u64,
    pub number: u64,
}
