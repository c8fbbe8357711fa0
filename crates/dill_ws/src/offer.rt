ghost use Rattle.std.specs.Prelude.{◌≡◌, ◌≤◌, ◌+◌, ◌++◌, [], length, vec_capacity, codes, IfOk};
ghost use Rattle.std.specs.List.{list_all};
ghost use Rattle.base64.specs.Engines.{standard};
ghost use Rattle.base64.specs.GeneralPurpose.{encode_of};
ghost use Rattle.dill_base.specs.Writing.{Writes};
ghost use Rattle.dill_http.specs.Bytes.{is_resource, is_resource_byte};
ghost use Rattle.dill_ws.specs.Handshakes.{client_lines, head_of_lines, any_key, are_too_long, head_fault_of, client_due};

use base64::engine::general_purpose::STANDARD;
use dill_base::{Errno, NoMemory, Octets, WriteFault};
use std::alloc::Global;

/// The head by which a client asks for a WebSocket (RFC 6455, section 4.1), with the base64 of a key of 16 random bytes.
/// Refused as `head_fault` says, before memory is taken.
#[tactic(auto, unfolding(crate::specs::Handshakes::client_due))]
pub fn client_head(
    alloc: Global,
    resource: &[u8],
    host: &[u8],
    key: [u8; 16],
) -> Result<Octets, WriteFault>
    ensures { Writes result (client_due resource.now host.now key) }
{
    match head_fault(resource, host) {
        Some(errno) => Err(WriteFault::Refused(errno)),
        None => match head_bytes(alloc, resource, host, key) {
            Ok(head) => Ok(head),
            Err(_) => Err(WriteFault::NoMemory),
        },
    }
}

/// Why a client's head is refused: `Einval` where resource or host isn't one or more bytes from 21 to 7e (hexadecimal),
/// `Emsgsize` where a line has over 8,192 bytes without its CRLF or the head over 16,384. It takes no memory.
#[tactic(auto, unfolding(crate::specs::Handshakes::head_fault_of))]
pub fn head_fault(resource: &[u8], host: &[u8]) -> Option<Errno>
    ensures { result ≡ head_fault_of resource.now host.now }
{
    if !is_seen(resource) || !is_seen(host) {
        return Some(Errno::Einval);
    }
    if is_too_long(resource, host) {
        Some(Errno::Emsgsize)
    } else {
        None
    }
}

// Without the lines' own bytes a line has at most 8,179 or 8,186 and the head at most 16,246.
fn is_too_long(resource: &[u8], host: &[u8]) -> bool
    ensures { result ≡ are_too_long (client_lines resource.now host.now any_key) }
{
    resource.len() > 8_179 || host.len() > 8_186 || resource.len() + host.len() > 16_246
}

fn head_bytes(
    alloc: Global,
    resource: &[u8],
    host: &[u8],
    key: [u8; 16],
) -> Result<Octets, NoMemory>
    ensures { IfOk result (λ o. o ≡ head_of_lines (client_lines resource.now host.now (encode_of standard key))) }
{
    let mut head = Octets::from_slice(alloc, b"GET ")?;
    head.push_all(resource)?;
    head.push_all(b" HTTP/1.1\r\nHost: ")?;
    head.push_all(host)?;
    head.push_all(b"\r\nUpgrade: websocket\r\nConnection: Upgrade\r\nSec-WebSocket-Key: ")?;
    head.push_all(&key_text(key))?;
    head.push_all(b"\r\nSec-WebSocket-Version: 13\r\n\r\n")?;
    Ok(head)
}

/// Puts the same head into these bytes, which are none and have room for it. It takes no memory. The key is in base64.
pub fn client_head_into(bytes: &mut Vec<u8>, resource: &[u8], host: &[u8], key: &[u8; 24])
    requires empty { bytes.old.items ≡ [] }
    requires room { length resource.now + length host.now + 138 ≤ vec_capacity bytes.old }
    ensures head { bytes.new.items ≡ head_of_lines (client_lines resource.now host.now key.now) }
    ensures kept { vec_capacity bytes.old ≤ vec_capacity bytes.new }
{
    put(bytes, b"GET ");
    put(bytes, resource);
    put(bytes, b" HTTP/1.1\r\nHost: ");
    put(bytes, host);
    put(
        bytes,
        b"\r\nUpgrade: websocket\r\nConnection: Upgrade\r\nSec-WebSocket-Key: ",
    );
    put(bytes, key);
    put(bytes, b"\r\nSec-WebSocket-Version: 13\r\n\r\n");
}

// Puts a piece behind these bytes, which have room for it.
fn put(bytes: &mut Vec<u8>, piece: &[u8])
    requires { length bytes.old.items + length piece.now ≤ vec_capacity bytes.old }
    ensures put { bytes.new.items ≡ bytes.old.items ++ piece.now }
    ensures count { length bytes.new.items ≡ length bytes.old.items + length piece.now }
    ensures kept { vec_capacity bytes.old ≤ vec_capacity bytes.new }
{
    let _ = bytes.extend_from_slice(piece);
}

/// The base64 of a key of 16 bytes.
pub fn key_text(key: [u8; 16]) -> [u8; 24]
    ensures { result ≡ encode_of standard key }
{
    let mut text = [0; 24];
    let _written = STANDARD.encode_slice(&key, &mut text);
    text
}

// One or more bytes that are seen, in ASCII.
fn is_seen(bytes: &[u8]) -> bool
    ensures { result ≡ is_resource bytes.now }
{
    !bytes.is_empty() && are_seen(bytes)
}

fn are_seen(bytes: &[u8]) -> bool
    ensures { result ≡ list_all is_resource_byte bytes.now }
{
    bytes.iter().all(|byte| is_seen_byte(*byte))
}

fn is_seen_byte(byte: u8) -> bool
    ensures { result ≡ is_resource_byte byte }
{
    b'!' <= byte && byte <= b'~'
}
