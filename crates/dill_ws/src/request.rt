ghost use Rattle.std.specs.Prelude.{◌≡◌, ◌&&◌, true, false, bytes_eq, codes, IfSome, IfNone, Some, None};
ghost use Rattle.dill_ws.specs.HeadLines.{lines_at, HasLineFront};
ghost use Rattle.dill_ws.specs.Offers.{is_get, is_key, is_offer, keys, versions, only, passes, client_asks, key_of};
ghost use Rattle.dill_ws.specs.Handshakes.{client_front, IsAsked};

use crate::fields::{are_fields, has_field, has_item, only_value};
use crate::line::first_line;
use crate::reading::{size_of_head, stop_of_head};
use base64::engine::general_purpose::STANDARD;
use dill_base::{Errno, Front};
use dill_http::{http_laws, read_request};

/// What stands at the front of what a client sent: its head with the key, too little to judge yet, or a refusal.
#[derive(Clone, Copy, Debug, PartialEq, Eq)]
pub enum Asked {
    Whole { key: [u8; 24], used: usize },
    Need,
    Fault(Errno),
}

/// The head by which a client asks for a WebSocket (RFC 6455, section 4.2.1), at the front of what has come.
///
/// A line that HTTP refuses is a refusal at its byte, a head that doesn't end within 16,384 bytes is `Emsgsize` at the
/// last of them, and what else is wrong is `Eproto` once the empty line is there.
pub fn read_client_head(bytes: &[u8]) -> Asked
    ensures front { result ≡ client_front bytes.now }
    ensures spelled { IsAsked bytes.now result }
{
    http_laws();
    asked_by_lines(bytes)
}

fn asked_by_lines(bytes: &[u8]) -> Asked
    ensures front { result ≡ client_front bytes.now }
    ensures line { HasLineFront bytes.now }
{
    http_laws();
    match stop_of_head(bytes) {
        Front::Whole { .. } => match key_asked(bytes) {
            Some(key) => Asked::Whole {
                key,
                used: size_of_head(bytes),
            },
            None => Asked::Fault(Errno::Eproto),
        },
        Front::Need => Asked::Need,
        Front::Fault(errno) => Asked::Fault(errno),
    }
}

// The key, where the lines ask for a WebSocket.
fn key_asked(bytes: &[u8]) -> Option<[u8; 24]>
    ensures some { IfSome result (λ key. (client_asks (lines_at bytes.now) ≡ true) × (key_of (lines_at bytes.now) ≡ key)) }
    ensures none { IfNone result (client_asks (lines_at bytes.now) ≡ false) }
{
    match first_line(bytes) {
        Some(first) => key_behind(first.text, first.rest),
        None => None,
    }
}

fn key_behind(first: &[u8], fields: &[u8]) -> Option<[u8; 24]>
    ensures some { IfSome result (λ key. (is_get first.now && is_offer (lines_at fields.now) && passes is_key (only (keys (lines_at fields.now))) ≡ true) × (only (keys (lines_at fields.now)) ≡ Some key)) }
    ensures none { IfNone result (is_get first.now && is_offer (lines_at fields.now) && passes is_key (only (keys (lines_at fields.now))) ≡ false) }
{
    if !is_get(first) {
        return None;
    }
    if !is_offer(fields) {
        return None;
    }
    key_in(fields)
}

fn is_get(line: &[u8]) -> bool
    ensures { result ≡ is_get line.now }
{
    read_request(line).is_some() && line.starts_with(b"GET ") && line.ends_with(b"HTTP/1.1")
}

// Do the fields ask for a WebSocket, but for the key?
fn is_offer(fields: &[u8]) -> bool
    ensures { result ≡ is_offer (lines_at fields.now) }
{
    are_fields(fields)
        && has_field(fields, b"Host")
        && has_item(fields, b"Upgrade", b"websocket")
        && has_item(fields, b"Connection", b"upgrade")
        && is_version(fields)
}

fn is_version(fields: &[u8]) -> bool
    ensures { result ≡ passes (bytes_eq (codes "13")) (only (versions (lines_at fields.now))) }
{
    match only_value(fields, b"Sec-WebSocket-Version") {
        Some(version) => version == b"13".as_slice(),
        None => false,
    }
}

// The one key, where it is the strict base64 of 16 bytes.
fn key_in(fields: &[u8]) -> Option<[u8; 24]>
    ensures some { IfSome result (λ key. (only (keys (lines_at fields.now)) ≡ Some key) × (is_key key ≡ true)) }
    ensures none { IfNone result (passes is_key (only (keys (lines_at fields.now))) ≡ false) }
{
    let key = only_value(fields, b"Sec-WebSocket-Key")?;
    let Ok(key) = <[u8; 24]>::try_from(key) else {
        return None;
    };
    if is_key(&key) { Some(key) } else { None }
}

fn is_key(key: &[u8; 24]) -> bool
    ensures { result ≡ is_key key.now }
{
    let mut bytes = [0; 18];
    match STANDARD.decode_slice_unchecked(key, &mut bytes) {
        Ok(count) => count == 16,
        Err(_) => false,
    }
}
