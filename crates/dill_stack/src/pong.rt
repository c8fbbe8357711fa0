ghost use Rattle.std.specs.Prelude.{◌≡◌, ◌≤◌, length, true};
ghost use Rattle.dill_ws.specs.Frames.{frame_bytes};

use dill_ws::{Control, control_write};
use std::marker::Model;

/// A pong, which lies in a place of its own.
#[derive(Drop)]
pub(crate) struct Pong {
    frame: Control,
}

impl Model for Pong {
    ghost use Rattle.std.specs.Prelude.{ℕ, List, ◌≤◌, take};

    ghost Value = { List ℕ };

    ghost view = { λ p. take p.frame.length p.frame.bytes };

    ghost invariant = { λ p. (1 ≤ p.frame.length) × (p.frame.length ≤ 131) };
}

impl Pong {
    /// The answer to a ping of this payload (RFC 6455, section 5.5.3). It takes no memory.
    pub(crate) fn new(key: Option<[u8; 4]>, payload: &[u8]) -> Pong
        requires { length payload.now ≤ 125 }
        ensures { result ≡ frame_bytes true 10 key payload.now }
    {
        Pong {
            frame: control_write(10, key, payload),
        }
    }

    pub(crate) fn as_slice(&self) -> &[u8]
        ensures value { result.now ≡ self.now }
        ensures some { 1 ≤ length self.now }
    {
        &self.frame.bytes[..self.frame.length]
    }
}
