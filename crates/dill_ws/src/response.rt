ghost use Rattle.std.specs.Prelude.{◌≡◌, bytes_eq};
ghost use Rattle.dill_base.specs.Reading.{IsFront};
ghost use Rattle.dill_ws.specs.HeadLines.{lines_at, head_limit, HasLineFront, HeadShows};
ghost use Rattle.dill_ws.specs.Offers.{is_switch, is_agreement, accepts, only, passes, server_agrees};
ghost use Rattle.dill_ws.specs.Handshakes.{server_head_of, server_front, ServerSpells};

use crate::fields::{are_fields, has_field, has_item, only_value};
use crate::line::first_line;
use crate::reading::{size_of_head, stop_of_head};
use dill_base::{Errno, Front};
use dill_http::{http_laws, read_status};

/// The head that a server answers with (RFC 6455, section 4.2.2), with the accept value of the client's key.
pub fn server_head(accept: [u8; 28]) -> [u8; 129]
    ensures { result ≡ server_head_of accept }
{
    let mut head =
        *b"HTTP/1.1 101 Switching Protocols\r\nUpgrade: websocket\r\nConnection: Upgrade\r\nSec-WebSocket-Accept: ............................\r\n\r\n";
    head[97..125].copy_from_slice(&accept);
    head
}

/// The head by which a server agrees (RFC 6455, section 4.1), at the front of what has come, with the accept value of
/// the key that was sent. The message is the whole head.
///
/// A line that HTTP refuses is a refusal at its byte, a head that doesn't end within 16,384 bytes is `Emsgsize` at the
/// last of them, and what else is wrong is `Eproto` once the empty line is there.
pub fn read_server_head(bytes: &[u8], accept: [u8; 28]) -> Front
    ensures front { result ≡ server_front accept bytes.now }
    ensures spelled { IsFront (ServerSpells accept) (HeadShows (server_agrees accept)) head_limit bytes.now result }
{
    http_laws();
    agreed_by_lines(bytes, accept)
}

fn agreed_by_lines(bytes: &[u8], accept: [u8; 28]) -> Front
    ensures front { result ≡ server_front accept bytes.now }
    ensures line { HasLineFront bytes.now }
{
    http_laws();
    match stop_of_head(bytes) {
        Front::Whole { .. } => {
            if !agrees(bytes, accept) {
                return Front::Fault(Errno::Eproto);
            }
            let size = size_of_head(bytes);
            Front::Whole {
                from: 0,
                to: size,
                used: size,
            }
        }
        Front::Need => Front::Need,
        Front::Fault(errno) => Front::Fault(errno),
    }
}

fn agrees(bytes: &[u8], accept: [u8; 28]) -> bool
    ensures { result ≡ server_agrees accept (lines_at bytes.now) }
{
    match first_line(bytes) {
        Some(first) => is_switch(first.text) && is_agreement(first.rest, accept),
        None => false,
    }
}

fn is_switch(line: &[u8]) -> bool
    ensures { result ≡ is_switch line.now }
{
    if !line.starts_with(b"HTTP/1.1") {
        return false;
    }
    match read_status(line) {
        Some((code, _)) => code == 101,
        None => false,
    }
}

fn is_agreement(fields: &[u8], accept: [u8; 28]) -> bool
    ensures { result ≡ is_agreement accept (lines_at fields.now) }
{
    are_fields(fields)
        && has_item(fields, b"Upgrade", b"websocket")
        && has_item(fields, b"Connection", b"upgrade")
        && is_accepted(fields, accept)
        && !has_field(fields, b"Sec-WebSocket-Extensions")
        && !has_field(fields, b"Sec-WebSocket-Protocol")
}

fn is_accepted(fields: &[u8], accept: [u8; 28]) -> bool
    ensures { result ≡ passes (bytes_eq accept) (only (accepts (lines_at fields.now))) }
{
    match only_value(fields, b"Sec-WebSocket-Accept") {
        Some(value) => accept.as_slice() == value,
        None => false,
    }
}
