use crate::acts::{gone, message, note, refused, stood};
use crate::greeting::{asking, expecting, heard};
use crate::http::head;
use crate::messages::Kind;
use dill_stack::Stack;
use std::alloc::Global;
use std::test::Fail;

/// What comes: a message through a layer, a request, or the head that a handshake waits for.
#[derive(Clone, Copy)]
enum Item {
    Message(Kind),
    Request,
    ClientHead,
    ServerHead,
}

/// What is found at a front of this item, and then at the end of the link behind it.
fn cut_short(alloc: Global, item: Item, front: &[u8]) -> Result<Vec<u8>, Fail> {
    let mut log = Vec::new(alloc);
    match item {
        Item::Message(kind) => message_cut_short(alloc, &mut log, kind, front)?,
        Item::Request => request_cut_short(alloc, &mut log, front)?,
        Item::ClientHead => client_cut_short(alloc, &mut log, front)?,
        Item::ServerHead => server_cut_short(alloc, &mut log, front)?,
    }
    Ok(log)
}

// Looks for a message, and once more behind the end of the link; what a further one is refused with stands behind it.
fn looks_twice(alloc: Global, log: &mut Vec<u8>, stack: &mut Stack) -> Result<(), Fail> {
    message(alloc, log, stack, 64)?;
    stack.ended();
    message(alloc, log, stack, 64)?;
    refused(log, stack, 64)
}

fn message_cut_short(
    alloc: Global,
    log: &mut Vec<u8>,
    kind: Kind,
    front: &[u8],
) -> Result<(), Fail> {
    let mut stack = stood(alloc, front, kind)?;
    looks_twice(alloc, log, &mut stack)
}

// What stands behind the lines of a request that are whole, where the link ends there.
fn request_cut_short(alloc: Global, log: &mut Vec<u8>, front: &[u8]) -> Result<(), Fail> {
    let mut lines = Vec::new(alloc);
    let mut stack = stood(alloc, front, Kind::Http)?;
    stack.ended();
    let last = head(alloc, &mut lines, &mut stack)?;
    note(log, &last)
}

fn client_cut_short(alloc: Global, log: &mut Vec<u8>, front: &[u8]) -> Result<(), Fail> {
    let mut stack = expecting(alloc, front)?;
    heard(log, &mut stack)?;
    stack.ended();
    heard(log, &mut stack)
}

fn server_cut_short(alloc: Global, log: &mut Vec<u8>, front: &[u8]) -> Result<(), Fail> {
    let mut own = Vec::new(alloc);
    let mut stack = asking(alloc, front)?;
    gone(&mut own, &mut stack)?;
    heard(log, &mut stack)?;
    stack.ended();
    heard(log, &mut stack)
}

const CLIENT: &[u8] =
    b"GET / HTTP/1.1\r\nHost: h\r\nUpgrade: websocket\r\nConnection: Upgrade\r\nSec-WebSocket-Key: dGhlIHNhbXBsZSBub25jZQ==\r\nSec-WebSocket-Version: 13\r\n\r\n";

const SERVER: &[u8] =
    b"HTTP/1.1 101 Switching Protocols\r\nUpgrade: websocket\r\nConnection: Upgrade\r\nSec-WebSocket-Accept: A53kGHxdR0DZMiGvwLQWin6GxpE=\r\n\r\n";

#[test]
fn an_end_inside_an_item_is_no_boundary(rt: HostRuntime) -> Result<(), Fail> {
    let alloc = rt.alloc();
    let table = [
        (
            Item::Message(Kind::Prefix(2, false)),
            b"\x00\x02hi" as &[u8],
            b"need;EPROTO;ECONNRESET;" as &[u8],
        ),
        (
            Item::Message(Kind::Suffix),
            b"hi\r\n",
            b"need;EPROTO;ECONNRESET;",
        ),
        (
            Item::Message(Kind::Server),
            b"\x01\x83\0\0\0\0Hel\x89\x80\0\0\0\0\x80\x82\0\0\0\0lo",
            b"need;EPROTO;ECONNRESET;",
        ),
        (
            Item::Request,
            b"GET / HTTP/1.1\r\nHost: x\r\nA:\r\n\r\n",
            b"EPROTO;",
        ),
        (Item::ClientHead, CLIENT, b"need;EPROTO;"),
        (Item::ServerHead, SERVER, b"need;EPROTO;"),
    ];
    for (item, bytes, want) in table {
        for count in 1..bytes.len() {
            let told = cut_short(alloc, item, &bytes[..count])?;
            assert_eq!(rt; told.as_slice(), want);
        }
    }
    Ok(())
}

#[test]
fn an_end_between_items_is_told(rt: HostRuntime) -> Result<(), Fail> {
    let alloc = rt.alloc();
    let table = [
        (
            Item::Message(Kind::Prefix(2, false)),
            b"" as &[u8],
            b"need;EPIPE;" as &[u8],
        ),
        (
            Item::Message(Kind::Prefix(2, false)),
            b"\x00\x02hi",
            b"hi;EPIPE;",
        ),
        (Item::Message(Kind::Suffix), b"", b"need;EPIPE;"),
        (Item::Message(Kind::Suffix), b"hi\r\n", b"hi;EPIPE;"),
        (Item::Message(Kind::Server), b"", b"need;EPIPE;"),
        (
            Item::Message(Kind::Server),
            b"\x81\x82\0\0\0\0hi",
            b"hi;EPIPE;",
        ),
        (Item::Request, b"", b"EPIPE;"),
        (Item::ClientHead, b"", b"need;EPIPE;"),
        (Item::ServerHead, b"", b"need;EPIPE;"),
    ];
    for (item, bytes, want) in table {
        let told = cut_short(alloc, item, bytes)?;
        assert_eq!(rt; told.as_slice(), want);
    }
    Ok(())
}

#[test]
fn a_head_has_fewer_than_16384_bytes_before_its_end(rt: HostRuntime) -> Result<(), Fail> {
    let alloc = rt.alloc();
    let mut bytes = Vec::new(alloc);
    bytes.extend_from_slice(b"GET / HTTP/1.1\r\n")?;
    for _at in 0..2_728u32 {
        bytes.extend_from_slice(b"a: b\r\n")?;
    }
    assert_eq!(rt; bytes.len(), 16_384);
    let whole = cut_short(alloc, Item::ClientHead, bytes.as_slice())?;
    assert_eq!(rt; whole.as_slice(), b"EMSGSIZE;EMSGSIZE;" as &[u8]);
    bytes.truncate(16_383);
    let front = cut_short(alloc, Item::ClientHead, bytes.as_slice())?;
    assert_eq!(rt; front.as_slice(), b"need;EPROTO;" as &[u8]);
    Ok(())
}
