ghost use Rattle.std.specs.Prelude.{◌≡◌, ◌≤◌, true, length, take};
ghost use Rattle.dill_ws.specs.Frames.{frame_bytes, masked_from};

use crate::mask;

/// A control frame, in its first `length` bytes.
#[derive(Clone, Copy, Debug, PartialEq, Eq)]
pub struct Control {
    pub bytes: [u8; 131],
    pub length: usize,
}

/// A close (8), ping (9) or pong (10) frame. It takes no memory.
pub fn control_write(opcode: u8, key: Option<[u8; 4]>, payload: &[u8]) -> Control
    requires control { 8 ≤ opcode }
    requires known { opcode ≤ 10 }
    requires short { length payload.now ≤ 125 }
    ensures bytes { take result.length result.bytes ≡ frame_bytes true opcode key payload.now }
    ensures length { result.length ≡ length (frame_bytes true opcode key payload.now) }
{
    match key {
        None => plain(opcode, payload),
        Some(key) => masked(opcode, key, payload),
    }
}

fn plain(opcode: u8, payload: &[u8]) -> Control
    requires known { opcode ≤ 10 }
    requires short { length payload.now ≤ 125 }
    ensures bytes { take result.length result.bytes ≡ frame_bytes true opcode None payload.now }
    ensures length { result.length ≡ length (frame_bytes true opcode None payload.now) }
{
    let count = payload.len();
    let mut bytes = [0; 131];
    bytes[0] = 0x80 + opcode;
    bytes[1] = count as u8;
    bytes[2..2 + count].copy_from_slice(payload);
    Control {
        bytes,
        length: 2 + count,
    }
}

fn masked(opcode: u8, key: [u8; 4], payload: &[u8]) -> Control
    requires known { opcode ≤ 10 }
    requires short { length payload.now ≤ 125 }
    ensures bytes { take result.length result.bytes ≡ frame_bytes true opcode (Some key) payload.now }
    ensures length { result.length ≡ length (frame_bytes true opcode (Some key) payload.now) }
{
    let count = payload.len();
    let mut bytes = [0; 131];
    bytes[0] = 0x80 + opcode;
    bytes[1] = 0x80 + count as u8;
    bytes[2] = key[0];
    bytes[3] = key[1];
    bytes[4] = key[2];
    bytes[5] = key[3];
    put_masked(&mut bytes[6..6 + count], key, payload);
    Control {
        bytes,
        length: 6 + count,
    }
}

// Writes the masked payload over a slice of its length.
fn put_masked(place: &mut [u8], key: [u8; 4], payload: &[u8])
    requires { length place.old ≡ length payload.now }
    ensures { place.new ≡ masked_from 0 key payload.now }
{
    place.copy_from_slice(payload);
    mask(key, place);
}
