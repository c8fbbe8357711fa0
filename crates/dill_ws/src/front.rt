ghost use Rattle.std.specs.Prelude.{◌≡◌, ◌≤◌, ◌+◌, length};
ghost use Rattle.dill_ws.specs.Frames.{length_bits, may_follow};
ghost use Rattle.dill_ws.specs.Fronts.{bits_of, length_size, told, may_start, is_least, key_size, key_at, head_at, head_front, IsHeadFront};

use crate::frame::bits_of_length;
use crate::{Head, HeadFront, Side};
use dill_base::Errno;

/// The head of the frame at the front of what has come, read by the receiver. `joining` says that the start of a
/// message has come and its last frame hasn't.
///
/// Bytes 1 and 2 are judged when both are there, the length when all of its bytes are there; the payload isn't waited for.
/// A head that breaks a rule of RFC 6455, sections 5.1 to 5.5, is `Eproto`.
pub fn frame_front(receiver: Side, joining: bool, bytes: &[u8]) -> HeadFront
    ensures front { result ≡ head_front receiver joining bytes.now }
    ensures spelled { IsHeadFront receiver joining bytes.now result }
{
    front_by_fields(receiver, joining, bytes)
}

#[tactic(auto, unfolding(crate::specs::Fronts::head_front))]
fn front_by_fields(receiver: Side, joining: bool, bytes: &[u8]) -> HeadFront
    ensures { result ≡ head_front receiver joining bytes.now }
{
    if bytes.len() < 2 {
        return HeadFront::Need;
    }
    if !starts(receiver, joining, bytes[0], bytes[1]) {
        return HeadFront::Fault(Errno::Eproto);
    }
    let bits = bytes[1] & 0x7F;
    let start = 2 + size_of_length(bits);
    if bytes.len() < start {
        return HeadFront::Need;
    }
    let length = length_told(bits, &bytes[2..]);
    if !has_least_form(bits, length) {
        return HeadFront::Fault(Errno::Eproto);
    }
    if bytes.len() - start < size_of_key(receiver) {
        return HeadFront::Need;
    }
    HeadFront::Whole(Head {
        fin: bytes[0] >= 0x80,
        opcode: bytes[0] & 0x0F,
        key: key_from(receiver, &bytes[start..]),
        start: start + size_of_key(receiver),
        length,
    })
}

// Are bytes 1 and 2 those of a frame that may come?
fn starts(receiver: Side, joining: bool, first: u8, second: u8) -> bool
    ensures { result ≡ may_start receiver joining first second }
{
    let reserved = (first >> 4) & 0x07;
    let masked = second >= 0x80;
    reserved == 0
        && follows(joining, first >= 0x80, first & 0x0F, second & 0x7F)
        && masked == matches!(receiver, Side::Server)
}

// May such a frame come, where a message is being joined or not?
fn follows(joining: bool, fin: bool, opcode: u8, bits: u8) -> bool
    ensures { result ≡ may_follow joining fin opcode bits }
{
    match opcode {
        0 => joining,
        1 | 2 => !joining,
        8 | 9 | 10 => fin && bits <= 125,
        _ => false,
    }
}

/// How many bytes behind byte 2 tell the payload's length, by the low seven bits of byte 2 (RFC 6455, section 5.2).
pub fn size_of_length(bits: u8) -> usize
    ensures { result ≡ length_size bits }
{
    match bits {
        0..126 => 0,
        126 => 2,
        _ => 8,
    }
}

/// The payload's length, by the low seven bits of byte 2 and the bytes behind it.
pub fn length_told(bits: u8, behind: &[u8]) -> u64
    requires { length_size bits ≤ length behind.now }
    ensures { result ≡ told bits behind.now }
{
    if bits < 126 {
        return bits as u64;
    }
    if bits == 126 {
        return u16::from_be_bytes([behind[0], behind[1]]) as u64;
    }
    u64::from_be_bytes([
        behind[0], behind[1], behind[2], behind[3], behind[4], behind[5], behind[6], behind[7],
    ])
}

fn has_least_form(bits: u8, length: u64) -> bool
    ensures { result ≡ is_least bits length }
{
    bits_of_length(length) == bits && length < 1 << 63
}

fn size_of_key(receiver: Side) -> usize
    ensures { result ≡ key_size receiver }
{
    match receiver {
        Side::Client => 0,
        Side::Server => 4,
    }
}

fn key_from(receiver: Side, behind: &[u8]) -> Option<[u8; 4]>
    requires { key_size receiver ≤ length behind.now }
    ensures { result ≡ key_at receiver behind.now }
{
    match receiver {
        Side::Client => None,
        Side::Server => Some([behind[0], behind[1], behind[2], behind[3]]),
    }
}
