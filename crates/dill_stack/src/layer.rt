use dill_base::Octets;
use dill_frames::PrefixForm;
use dill_ws::Side;

/// What is attached to a stack: each message behind its length, each before a terminator, an end by a terminal
/// message, the heads of HTTP, or frames of WebSocket after the handshake.
#[derive(Debug, Drop)]
pub enum Layer {
    /// A length of 1 to 8 bytes.
    Prefix(PrefixForm),
    /// A terminator of 1 to 32 bytes.
    Suffix(Octets),
    /// A terminal message of at most 1,024 bytes, which may be empty.
    Term(Octets),
    Http,
    /// `text`: messages are sent as text, and have to be UTF-8. Both kinds are received alike.
    Ws { side: Side, text: bool },
}

/// What stands on top of a stack. `Bytes` is a stack without layers.
#[derive(Clone, Copy, Debug, PartialEq, Eq)]
pub enum Top {
    Bytes,
    Prefix,
    Suffix,
    Term,
    Http,
    Ws,
}
