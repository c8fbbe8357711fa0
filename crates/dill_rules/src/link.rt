/// What the kernel made: a link that listens, one whose `connect` isn't finished, with the coroutine whose call made it, or a
/// stream.
#[derive(Clone, Copy, Debug, PartialEq, Eq)]
pub enum Sort {
    Listening,
    Connecting(u64),
    Stream,
}
