/// A coroutine, and the bundle that it lives in.
#[derive(Clone, Copy, Debug, PartialEq, Eq)]
pub struct Home {
    pub who: u64,
    pub bundle: u64,
}

/// A bundle, its owner, and whether its closing has begun. Bundle 0 is the root, and has no owner.
#[derive(Clone, Copy, Debug, PartialEq, Eq)]
pub struct Bundle {
    pub name: u64,
    pub owner: Option<u64>,
    pub closing: bool,
}
