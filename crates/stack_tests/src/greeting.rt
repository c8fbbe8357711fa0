use crate::acts::{bare, gone, message, note, refused};
use crate::counting::Counter;
use dill_stack::Stack;
use std::alloc::Global;
use std::test::Fail;

/// A server's handshake begins on a stack to which these bytes have come.
pub fn expecting(alloc: Global, bytes: &[u8]) -> Result<Stack, Fail> {
    let mut stack = bare(alloc, bytes)?;
    if !stack.is_sent() {
        return Err(Fail::from("pending"));
    }
    match stack.expect_greet(true) {
        Ok(()) => Ok(stack),
        Err(_) => Err(Fail::from("expect")),
    }
}

/// A client's handshake begins on a stack to which these bytes have come.
pub fn asking(alloc: Global, bytes: &[u8]) -> Result<Stack, Fail> {
    let mut stack = bare(alloc, bytes)?;
    if !stack.is_sent() {
        return Err(Fail::from("pending"));
    }
    match stack.greet(true, b"/", b"h", &mut Counter(0)) {
        Ok(()) => Ok(stack),
        Err(_) => Err(Fail::from("greet")),
    }
}

/// A look at a handshake that has nothing to send.
pub fn heard(log: &mut Vec<u8>, stack: &mut Stack) -> Result<(), Fail> {
    if !stack.is_sent() {
        return Err(Fail::from("pending"));
    }
    note(log, &stack.greeted())
}

/// A handshake of a server, and three receives with what they send.
fn serves(alloc: Global, log: &mut Vec<u8>, stack: &mut Stack) -> Result<(), Fail> {
    heard(log, stack)?;
    gone(log, stack)?;
    heard(log, stack)?;
    message(alloc, log, stack, 64)?;
    message(alloc, log, stack, 64)?;
    gone(log, stack)?;
    message(alloc, log, stack, 64)?;
    refused(log, stack, 64)
}

/// A server's session whose bytes come in one piece.
fn served(alloc: Global, bytes: &[u8]) -> Result<Vec<u8>, Fail> {
    let mut stack = expecting(alloc, bytes)?;
    let mut log = Vec::new(alloc);
    serves(alloc, &mut log, &mut stack)?;
    Ok(log)
}

/// A handshake of a client: what it sends, its look then, and a message.
fn asks(alloc: Global, log: &mut Vec<u8>, stack: &mut Stack) -> Result<(), Fail> {
    gone(log, stack)?;
    heard(log, stack)?;
    message(alloc, log, stack, 64)
}

/// A client's session whose bytes come in one piece.
fn asked(alloc: Global, bytes: &[u8]) -> Result<Vec<u8>, Fail> {
    let mut stack = asking(alloc, bytes)?;
    let mut log = Vec::new(alloc);
    asks(alloc, &mut log, &mut stack)?;
    Ok(log)
}

#[test]
fn a_server_sends_exactly_these_bytes(rt: HostRuntime) -> Result<(), Fail> {
    let told = served(
        rt.alloc(),
        b"GET /chat HTTP/1.1\r\nHost: h\r\nUpgrade: websocket\r\nConnection: keep-alive, Upgrade\r\nSec-WebSocket-Key: dGhlIHNhbXBsZSBub25jZQ==\r\nSec-WebSocket-Version: 13\r\n\r\n\x81\x85\x37\xfa\x21\x3d\x7f\x9f\x4d\x51\x58\x01\x83\0\0\0\0Hel\x89\x80\0\0\0\0\x80\x82\0\0\0\0lo\x81\xfe\x00\x05",
    )?;
    assert_eq!(rt;
        told.as_slice(),
        b"need;HTTP/1.1 101 Switching Protocols\r\nUpgrade: websocket\r\nConnection: Upgrade\r\nSec-WebSocket-Accept: s3pPLMBiTxaQ9kYGzzhZRbK+xOo=\r\n\r\n;number;Hello;Hello;\x8a\0;EPROTO;ECONNRESET;" as &[u8]
    );
    Ok(())
}

#[test]
fn a_client_is_answered_and_reads_on(rt: HostRuntime) -> Result<(), Fail> {
    let told = asked(
        rt.alloc(),
        b"HTTP/1.1 101 Switching Protocols\r\nUpgrade: websocket\r\nConnection: Upgrade\r\nSec-WebSocket-Accept: A53kGHxdR0DZMiGvwLQWin6GxpE=\r\n\r\n\x81\x02hi",
    )?;
    assert_eq!(rt;
        told.as_slice(),
        b"GET / HTTP/1.1\r\nHost: h\r\nUpgrade: websocket\r\nConnection: Upgrade\r\nSec-WebSocket-Key: AAAAAQAAAAIAAAADAAAABA==\r\nSec-WebSocket-Version: 13\r\n\r\n;number;hi;" as &[u8]
    );
    Ok(())
}
