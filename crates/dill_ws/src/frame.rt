ghost use Rattle.std.specs.Prelude.{◌≡◌, ◌<◌, ◌≤◌, ◌+◌, ◌++◌, ◌∷◌, [], true, false, length, vec_capacity, IfOk};
ghost use Rattle.dill_ws.specs.Frames.{length_bits, length_tail, first_byte, second_byte, key_bytes, head_bytes, frame_bytes, masked, may_follow};

use crate::mask;
use dill_base::{NoMemory, Octets};
use std::alloc::{AllocError, Global};

/// The most bytes of a head: bytes 1 and 2, a length of eight, and a key.
const HEAD: usize = 14;

/// A whole frame with FIN: text (1), binary (2), or close (8), ping (9) or pong (10) with at most 125 bytes.
/// A client gives a key that its peer can't foresee (RFC 6455, section 5.3), a server none.
pub fn frame_write(
    alloc: Global,
    opcode: u8,
    key: Option<[u8; 4]>,
    payload: &[u8],
) -> Result<Octets, NoMemory>
    requires { may_follow false true opcode (length payload.now) ≡ true }
    ensures { IfOk result (λ o. o ≡ frame_bytes true opcode key payload.now) }
{
    match frame_in(alloc, opcode, key, payload) {
        Ok(bytes) => Ok(Octets::from_vec(bytes)),
        Err(_) => Err(NoMemory),
    }
}

fn frame_in(
    alloc: Global,
    opcode: u8,
    key: Option<[u8; 4]>,
    payload: &[u8],
) -> Result<Vec<u8>, AllocError>
    requires { opcode < 16 }
    ensures { IfOk result (λ v. v.items ≡ frame_bytes true opcode key payload.now) }
{
    let mut bytes = Vec::with_capacity(alloc, payload.len() + HEAD)?;
    frame_into(&mut bytes, opcode, key, payload);
    Ok(bytes)
}

/// Puts a whole frame with FIN behind these bytes, which have room for it. It takes no memory.
pub fn frame_into(bytes: &mut Vec<u8>, opcode: u8, key: Option<[u8; 4]>, payload: &[u8])
    requires known { opcode < 16 }
    requires room { length bytes.old.items + HEAD + length payload.now ≤ vec_capacity bytes.old }
    ensures frame { bytes.new.items ≡ bytes.old.items ++ frame_bytes true opcode key payload.now }
    ensures kept { vec_capacity bytes.old ≤ vec_capacity bytes.new }
{
    head_into(bytes, opcode, key, payload.len() as u64);
    masked_into(bytes, key, payload);
}

fn head_into(bytes: &mut Vec<u8>, opcode: u8, key: Option<[u8; 4]>, count: u64)
    requires known { opcode < 16 }
    requires room { length bytes.old.items + HEAD ≤ vec_capacity bytes.old }
    ensures head { bytes.new.items ≡ bytes.old.items ++ head_bytes true opcode key count }
    ensures most { length bytes.new.items ≤ length bytes.old.items + HEAD }
    ensures kept { vec_capacity bytes.old ≤ vec_capacity bytes.new }
{
    let _ = bytes.extend_from_slice(&opening(opcode, key, count));
    length_into(bytes, count);
    key_into(bytes, key);
}

/// Bytes 1 and 2 of a frame with FIN.
pub fn opening(opcode: u8, key: Option<[u8; 4]>, length: u64) -> [u8; 2]
    requires { opcode < 16 }
    ensures { result ≡ first_byte true opcode ∷ second_byte key length ∷ [] }
{
    let bits = bits_of_length(length);
    match key {
        None => [0x80 + opcode, bits],
        Some(_) => [0x80 + opcode, 0x80 + bits],
    }
}

/// The seven bits beside MASK for a length in its least form.
pub fn bits_of_length(length: u64) -> u8
    ensures value { result ≡ length_bits length }
    ensures seven { result < 128 }
{
    if length < 126 {
        length as u8
    } else if length < 65_536 {
        126
    } else {
        127
    }
}

fn length_into(bytes: &mut Vec<u8>, count: u64)
    requires room { length bytes.old.items + 8 ≤ vec_capacity bytes.old }
    ensures tail { bytes.new.items ≡ bytes.old.items ++ length_tail count }
    ensures most { length bytes.new.items ≤ length bytes.old.items + 8 }
    ensures kept { vec_capacity bytes.old ≤ vec_capacity bytes.new }
{
    if count < 126 {
        return;
    }
    if count < 65_536 {
        let _ = bytes.extend_from_slice(&(count as u16).to_be_bytes());
        return;
    }
    let _ = bytes.extend_from_slice(&count.to_be_bytes());
}

fn key_into(bytes: &mut Vec<u8>, key: Option<[u8; 4]>)
    requires room { length bytes.old.items + 4 ≤ vec_capacity bytes.old }
    ensures key { bytes.new.items ≡ bytes.old.items ++ key_bytes key }
    ensures most { length bytes.new.items ≤ length bytes.old.items + 4 }
    ensures kept { vec_capacity bytes.old ≤ vec_capacity bytes.new }
{
    if let Some(key) = key {
        let _ = bytes.extend_from_slice(&key);
    }
}

/// Puts a payload behind these bytes as it stands in its frame; they have room for it. It takes no memory. To do it again
/// takes the mask off.
pub fn masked_into(bytes: &mut Vec<u8>, key: Option<[u8; 4]>, payload: &[u8])
    requires room { length bytes.old.items + length payload.now ≤ vec_capacity bytes.old }
    ensures masked { bytes.new.items ≡ bytes.old.items ++ masked key payload.now }
    ensures kept { vec_capacity bytes.old ≤ vec_capacity bytes.new }
{
    let start = bytes.len();
    let _ = bytes.extend_from_slice(payload);
    if let Some(key) = key {
        mask(key, &mut bytes[start..]);
    }
}
