/// What a handle names: a bundle, an end of a channel, a listening link, a link with a stack of layers, or an
/// application's kind and value.
#[derive(Clone, Copy, Debug, PartialEq, Eq)]
pub enum Thing {
    Bundle(u64),
    End(u64),
    Listener(u64),
    Socket(u64),
    Value(u64, u64),
}
