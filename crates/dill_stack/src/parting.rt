use dill_base::Octets;

/// How a layer is taken leave of. A WebSocket layer sends a close frame with this code and reason, or, at code 0 and
/// no reason, one without either (RFC 6455, section 5.5.1).
#[derive(Debug, Drop)]
pub enum Parting {
    Plain,
    /// A code that may be sent (RFC 6455, section 7.4), and a reason in UTF-8 of at most 123 bytes.
    Close { code: u16, reason: Octets },
}
