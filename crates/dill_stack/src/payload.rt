ghost use Rattle.std.specs.Prelude.{◌≡◌, ◌≤◌, length};
ghost use Rattle.dill_ws.specs.Frames.{masked};

use dill_ws::mask;
use std::marker::Model;

/// The payload of a control frame, which lies in a place of its own (RFC 6455, section 5.5).
#[derive(Drop)]
pub(crate) struct Payload {
    bytes: [u8; 125],
    count: usize,
}

impl Model for Payload {
    ghost use Rattle.std.specs.Prelude.{ℕ, List, ◌≤◌, take};

    ghost Value = { List ℕ };

    ghost view = { λ p. take p.count p.bytes };

    ghost invariant = { λ p. p.count ≤ 125 };
}

impl Payload {
    /// The payload of a frame, whose mask is taken off.
    pub(crate) fn unmasked(key: Option<[u8; 4]>, payload: &[u8]) -> Payload
        requires { length payload.now ≤ 125 }
        ensures { result ≡ masked key payload.now }
    {
        let count = payload.len();
        let mut bytes = [0; 125];
        put(&mut bytes[..count], key, payload);
        Payload { bytes, count }
    }

    pub(crate) fn as_slice(&self) -> &[u8]
        ensures value { result.now ≡ self.now }
        ensures short { length self.now ≤ 125 }
    {
        &self.bytes[..self.count]
    }
}

// Writes the payload over a slice of its length.
fn put(place: &mut [u8], key: Option<[u8; 4]>, payload: &[u8])
    requires { length place.old ≡ length payload.now }
    ensures { place.new ≡ masked key payload.now }
{
    place.copy_from_slice(payload);
    if let Some(key) = key {
        mask(key, place);
    }
}
